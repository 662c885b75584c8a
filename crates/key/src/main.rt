// The marking key: a script from standard input, its output to standard output, in bounded memory.
#![tactic(auto)]

ghost use Rattle.std.specs.Prelude.{◌≤◌, length};
ghost use Rattle.key.specs.Stands.{Stands};

use capability_engine::{POOL_LEN, Script, Tables};
use std::io::{self, Read, Stdout};

// A script as far as it has come, with the tables, over the arrays that were lent to it: fixed memory, since there is no heap.
#[derive(Drop)]
struct Session<'a> {
    words: &'a mut [u64],
    next: &'a mut [usize],
    links: &'a mut [usize],
    gens: &'a mut [u64],
    tables: Tables,
    script: Script,
}

impl Session<'_> {
    // A piece of the script goes in, and its output, as far as it fits, into out.
    fn feed(&mut self, input: &[u8], out: &mut [u8])
        requires { Stands self.old }
        ensures stands { Stands self.new }
        ensures taken { self.new.script.progress.used ≤ length input.now }
        ensures fits { self.new.script.progress.at ≤ length out.new }
    {
        self.tables.feed(
            &mut self.script,
            input,
            out,
            0,
            self.words,
            self.next,
            self.links,
            self.gens,
        )
    }

    // A piece of the script goes in, and what it prints is written out.
    fn pump(&mut self, stdout: Stdout, input: &[u8]) -> io::Result<()>
        requires { Stands self.old }
        ensures { Stands self.new }
    {
        let mut out = [0u8; 65536];
        let mut from = 0;
        for _ in 0..u64::MAX {
            self.feed(&input[from..], &mut out);
            let p = self.script.progress;
            stdout.write_all(&out[..p.at])?;
            from += p.used;
            if !p.full {
                break;
            }
        }
        Ok(())
    }
}

// The script up to its end, or to where it cannot be read.
fn run(session: &mut Session, mut stdin: impl Read + Drop, stdout: Stdout) -> io::Result<()>
    requires { Stands session.old }
{
    let mut input = [0u8; 65536];
    stdout.write_all(&lines::HEADING)?;
    for _ in 0..u64::MAX {
        let Ok(n) = stdin.read(&mut input) else {
            break;
        };
        if n == 0 {
            break;
        }
        session.pump(stdout, &input[..n])?;
    }
    if session.script.progress.len == 0 {
        return Ok(());
    }
    // the last line lacks its end
    session.pump(stdout, b"\n")
}

fn main(rt: HostRuntime) {
    let mut words = [0u64; POOL_LEN];
    let mut next = [0usize; 1025];
    let mut links = [0usize; 1024];
    let mut gens = [0u64; 1024];
    if let Some(tables) = Tables::new(&words, &next, &mut links, &mut gens) {
        let mut session = Session {
            words: &mut words,
            next: &mut next,
            links: &mut links,
            gens: &mut gens,
            tables,
            script: Script::new(),
        };
        // it ends where its output cannot be written
        let _ = run(&mut session, rt.stdin(), rt.stdout());
    }
}
