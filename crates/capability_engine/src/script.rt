// Scripts: text in and text out, in pieces of whatever lengths.
ghost use Rattle.std.specs.Prelude.{◌≡◌, false, List, map, ◌+◌, ◌-◌, ◌<◌, ◌≤◌, length, drop};
ghost use Rattle.std.proofs.lemmas.List.Edits.{sets};
ghost use Rattle.definitions.specs.Reckoning.{Compartment};
ghost use Rattle.definitions.specs.Script.{answer_line, mapping_line};
ghost use Rattle.definitions.specs.Stream.{stream};
ghost use Rattle.definitions.specs.declared.call.Call.{Call};
ghost use Rattle.capability_engine.specs.PoolChain.{stored_at};
ghost use Rattle.capability_engine.specs.SegmentWords.{segments_from};
ghost use Rattle.capability_engine.specs.StreamCursor.{Table, Whole};
ghost use Rattle.capability_engine.specs.CompartmentGrown.{Grown, IsGrown};
ghost use Rattle.capability_engine.specs.ScriptFeed.{begun, Feeds, Runs, Replays};
ghost use Rattle.capability_engine.specs.ScriptSteps.{task_for, Sound, Hears, told, Prints, lines_on, Shows, IsShown, Performs, started, Goes};

use crate::compartments::{Tables, index_of};
use crate::lists::Lists;
use crate::region::RegionTracker;
use crate::remapper::Remapper;
use columns::has_room;
use definitions::{Answer, Call, Refusal};
use lines::{line_ahead, parse_line, put_answer, put_mapping, take_line};

// How many bytes an answer's line has.
const ANSWER_LEN: usize = 25;

// How far a script has come, beside the tables: between its pieces the first three, and the others of the last piece. It is numbers
// and a flag that whoever feeds may hand back as he likes: `Feeds` says of each what becomes of it, of 8 for nobody too.
#[derive(Clone, Copy)]
pub struct Progress {
    // how many bytes of the present line are held
    pub len: usize,
    // whose mappings are being written, 8 for nobody's, and how many lines of that P are written
    pub compartment: usize,
    pub from: usize,
    // how many bytes of the piece are taken
    pub used: usize,
    // where the output ends, and how many lines were written
    pub at: usize,
    pub lines: usize,
    // whether the next line did not fit
    pub full: bool,
}

// A script that is being run: the bytes of a line that has not ended, and how far it has come.
#[derive(Clone, Copy)]
pub struct Script {
    pub line: [u8; 88],
    pub progress: Progress,
}

// What a line asks for.
#[derive(Clone, Copy)]
pub(crate) enum Task {
    Tell(Answer),
    Regions(usize, Call),
    Segments(usize, Call),
    Print(usize),
    Allow(usize, u64),
    Nothing,
}

// A call is one on the regions or the segments of a compartment, or a P, or is refused at once.
fn task_of(call: Call) -> Task
    ensures { result ≡ task_for call }
{
    let k = match index_of(call.compartment()) {
        Ok(k) => k,
        Err(refusal) => return Task::Tell(Err(refusal)),
    };
    match call {
        Call::Map(..) | Call::Unmap(..) | Call::UnmapGpa(..) => Task::Segments(k, call),
        Call::Mappings(_) => Task::Print(k),
        Call::Allow(_, allowance) => Task::Allow(k, allowance),
        _ => Task::Regions(k, call),
    }
}

// Bytes are held up to the end of a line, or to their own: the line began before, or does not lie in the input whole, or is no
// call. Answers what the line asks for.
fn hear_bytes(line: &mut [u8], p: &mut Progress, input: &[u8]) -> Task
    requires { (length line.old ≡ 88) × (p.old.len ≤ 88) × (p.old.used < length input.now) }
    ensures { Hears line.old line.new p.old input.now p.new result }
{
    let taken = take_line(line, p.len, input, p.used);
    p.used = taken.used;
    p.len = taken.len;
    if !taken.ended {
        return Task::Nothing;
    }
    p.len = 0;
    let said = parse_line(&line[..taken.len]);
    let Some(call) = said else {
        return Task::Tell(Err(Refusal::Malformed));
    };
    task_of(call)
}

// Bytes are taken up to the end of a line, or to their own. A call's line that lies in the input whole is not copied.
fn hear(line: &mut [u8], p: &mut Progress, input: &[u8]) -> Task
    requires { (length line.old ≡ 88) × (p.old.len ≤ 88) × (p.old.used < length input.now) }
    ensures { Hears line.old line.new p.old input.now p.new result }
{
    if 0 < p.len {
        return hear_bytes(line, p, input);
    }
    let ahead = line_ahead(input, p.used);
    let Some((call, end)) = ahead else {
        return hear_bytes(line, p, input);
    };
    p.used = end;
    task_of(call)
}

// An answer's line, for which there is room.
fn tell(out: &mut [u8], p: &mut Progress, answer: Answer)
    requires { (p.old.at + 25 ≤ length out.old) × (p.old.lines ≤ p.old.at) }
    ensures { (out.new ≡ sets out.old p.old.at (answer_line answer)) × (p.new ≡ told p.old 25) }
{
    put_answer(out, p.at, answer);
    p.at += ANSWER_LEN;
    p.lines += 1;
}

// The lines of a P behind its first, as many as fit. Its first piece has to say how many they are in all: those that do not fit are
// counted from there on. Answers how many these are, in the first piece.
fn print_mappings(
    next: &[usize],
    words: &[u64],
    segments: &[u64],
    n: usize,
    head: usize,
    out: &mut [u8],
    p: &mut Progress,
) -> usize
    requires table { Table words.now segments.now n }
    requires whole { Whole next.now words.now head }
    requires le_from { (1 ≤ p.old.from) × (p.old.full ≡ false) × (p.old.lines ≤ p.old.at) }
    ensures prints { Prints (drop (p.old.from - 1) (map mapping_line (stream (stored_at next.now words.now head) (segments_from segments.now 0 n))))
        out.old out.new p.old p.new }
    ensures left_value { p.old.from ≡ 1 → p.new.lines + result
        ≡ p.old.lines + length (stream (stored_at next.now words.now head) (segments_from segments.now 0 n)) }
{
    let from = p.from;
    let lists = Lists {
        next,
        words,
        segments,
        n,
    };
    let c = lists.start(head);
    let mut cursor = lists.advance(c, from - 1);
    loop {
        let s = lists.next_mapping(cursor);
        let Some((m, d)) = s else {
            p.compartment = 8;
            return 0;
        };
        let put = put_mapping(out, p.at, m);
        let Some(at) = put else {
            p.full = true;
            if from > 1 {
                return 0;
            }
            return lists.count(cursor);
        };
        p.at = at;
        p.lines += 1;
        p.from += 1;
        cursor = d;
    }
}

// The lines of a P that are not written yet, as many as fit. Its segments are copied once, and its stream is gone along once.
fn print(
    tracker: RegionTracker,
    remapper: Remapper,
    out: &mut [u8],
    p: &mut Progress,
    words: &[u64],
    next: &[usize],
)
    requires shown { IsShown words.now next.now tracker remapper }
    requires full_value { (p.old.full ≡ false) × (p.old.lines ≤ p.old.at) }
    ensures { (c : Compartment) → Shows words.now next.now tracker remapper c → Prints (drop p.old.from (lines_on c)) out.old out.new p.old p.new }
{
    let mut segments = [0u64; 256];
    let n = remapper.copy_segments(&mut segments);
    let head = tracker.head;
    if p.from > 0 {
        print_mappings(next, words, &segments, n, head, out, p);
        return;
    }
    let at = p.at;
    if !has_room(out.len(), at, ANSWER_LEN) {
        p.full = true;
        return;
    }
    // the mappings come first, behind the answer's line: then it is known how many they are
    p.at += ANSWER_LEN;
    p.lines += 1;
    p.from = 1;
    let lines = p.lines;
    let left = print_mappings(next, words, &segments, n, head, out, p);
    let many = p.lines - lines + left;
    put_answer(out, at, Ok(many as u64));
}

// Is there something to do, and room that was not tried?
fn goes_on(p: Progress, len: usize) -> bool
    ensures { Goes p len result }
{
    !p.full && (p.compartment < 8 || p.used < len)
}

// A piece begins where the last one left the script. Whatever else a script says, no more is held than line has, and nobody
// is 8.
fn begin(progress: Progress, at: usize) -> Progress
    ensures { result ≡ started progress at }
{
    Progress {
        len: progress.len.min(88),
        compartment: progress.compartment.min(8),
        from: progress.from,
        used: 0,
        at,
        lines: 0,
        full: false,
    }
}

impl Script {
    // A script that has not begun.
    pub fn new() -> Script
        ensures { result ≡ begun }
    {
        let progress = Progress {
            len: 0,
            compartment: 8,
            from: 0,
            used: 0,
            at: 0,
            lines: 0,
            full: false,
        };
        Script {
            line: [0; 88],
            progress,
        }
    }
}

impl Tables {
    // What a line asks for is done, and answered by a line for which there is room. A P is only owed: its lines are written next.
    fn perform(
        &mut self,
        task: Task,
        out: &mut [u8],
        p: &mut Progress,
        words: &mut [u64],
        next: &mut [usize],
        links: &mut [usize],
        gens: &mut [u64],
    )
        requires grown { IsGrown words.old next.old links.old gens.old self.old }
        requires sound { Sound task }
        requires room { (p.old.at + 25 ≤ length out.old) × (p.old.lines ≤ p.old.at) × (8 ≤ p.old.compartment) × (p.old.compartment ≤ 8) }
        ensures { (calls : List Call) → Grown words.old next.old links.old gens.old self.old calls → Performs calls task out.old p.old words.new next.new links.new gens.new self.new out.new p.new }
    {
        match task {
            Task::Tell(answer) => tell(out, p, answer),
            Task::Regions(k, call) => {
                let answer = self.regions_of(k, call, words, next, links, gens);
                tell(out, p, answer);
            }
            Task::Segments(k, call) => {
                let answer = self.segments_of(k, call, words, next, links, gens);
                tell(out, p, answer);
            }
            Task::Allow(k, allowance) => {
                let answer = self.allow_of(k, allowance, words, next, links, gens);
                tell(out, p, answer);
            }
            Task::Print(k) => {
                p.compartment = k;
                p.from = 0;
            }
            Task::Nothing => {}
        }
    }

    // Runs the lines that end in a piece of a script, and writes their output from a place on, as many whole lines as fit. The
    // next piece goes on with what this one leaves.
    pub fn feed(
        &mut self,
        script: &mut Script,
        input: &[u8],
        out: &mut [u8],
        at: usize,
        words: &mut [u64],
        next: &mut [usize],
        links: &mut [usize],
        gens: &mut [u64],
    )
        requires { IsGrown words.old next.old links.old gens.old self.old }
        ensures { (calls : List Call) → Grown words.old next.old links.old gens.old self.old calls → Feeds calls script.old input.now out.old at words.new next.new links.new gens.new out.new self.new script.new }
    {
        let mut p = begin(script.progress, at);
        while goes_on(p, input.len()) {
            let k = p.compartment;
            if k < 8 {
                let tracker = self.trackers[k];
                let remapper = self.remappers[k];
                print(tracker, remapper, out, &mut p, words, next);
            } else if !has_room(out.len(), p.at, ANSWER_LEN) {
                p.full = true;
            } else {
                let task = hear(&mut script.line, &mut p, input);
                self.perform(task, out, &mut p, words, next, links, gens);
            }
        }
        script.progress = p;
    }

    // Runs the lines that end in a piece of a script for what they leave: what they print is dropped.
    fn run(
        &mut self,
        script: &mut Script,
        input: &[u8],
        words: &mut [u64],
        next: &mut [usize],
        links: &mut [usize],
        gens: &mut [u64],
    )
        requires { IsGrown words.old next.old links.old gens.old self.old }
        ensures { (calls : List Call) → Grown words.old next.old links.old gens.old self.old calls → Runs calls script.old input.now words.new next.new links.new gens.new self.new script.new }
    {
        let mut out = [0u8; 65536];
        let mut rest = input;
        while !rest.is_empty() {
            // a P that did not fit is not gone on with, so that each turn takes bytes
            script.progress.compartment = 8;
            self.feed(script, rest, &mut out, 0, words, next, links, gens);
            let used = script.progress.used;
            rest = &rest[used..];
        }
    }

    // The tables after a whole script.
    pub fn replay(
        &mut self,
        script: &[u8],
        words: &mut [u64],
        next: &mut [usize],
        links: &mut [usize],
        gens: &mut [u64],
    )
        requires { IsGrown words.old next.old links.old gens.old self.old }
        ensures { (calls : List Call) → Grown words.old next.old links.old gens.old self.old calls → Replays calls script.now words.new next.new links.new gens.new self.new }
    {
        let mut left = Script::new();
        self.run(&mut left, script, words, next, links, gens);
        if left.progress.len > 0 {
            // the last line lacks its end
            let end = [b'\n'; 1];
            self.run(&mut left, &end, words, next, links, gens);
        }
    }
}
