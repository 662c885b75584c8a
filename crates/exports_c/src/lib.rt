// What a host program links to run a script, or to read one after it: the functions of exports, under the same names and promises.
#![tactic(auto)]

ghost use Rattle.std.specs.Prelude.{◌≡◌};
ghost use Rattle.definitions.specs.Tests.{guest};
ghost use Rattle.definitions.specs.Calls.{stream_groups, permission_groups, region_groups, segment_groups, answer};
ghost use Rattle.definitions.specs.declared.call.Call.TheVariants.{Overlaps};
ghost use Rattle.definitions.specs.Pages.{record_len};
ghost use Rattle.exports.specs.Exports.{coded as coded_as, left_by, Prints, ReadsPage};

// Runs a script and writes its output, as many whole lines as fit, from the heading on; answers how many.
#[unsafe(no_mangle)]
pub extern "C" fn run_script(script: &[u8], out: &mut [u8]) -> usize
    ensures { Prints script.now out.old out.new result }
{
    exports::run_script(script, out)
}

// A page of a compartment's stream after a script: hpa, gpa, size, repeat and rights of each mapping.
#[unsafe(no_mangle)]
pub extern "C" fn stream_page(script: &[u8], compartment: u64, from: usize, out: &mut [u64]) -> u64
    ensures { ReadsPage 5 stream_groups (left_by script.now) compartment from out.old out.new result }
{
    exports::stream_page(script, compartment, from, out)
}

// A page of its permissions: start, end and rights.
#[unsafe(no_mangle)]
pub extern "C" fn permissions_page(
    script: &[u8],
    compartment: u64,
    from: usize,
    out: &mut [u64],
) -> u64
    ensures { ReadsPage 3 permission_groups (left_by script.now) compartment from out.old out.new result }
{
    exports::permissions_page(script, compartment, from, out)
}

// A page of its stored regions: start, end, holders and a count for each right.
#[unsafe(no_mangle)]
pub extern "C" fn regions_page(script: &[u8], compartment: u64, from: usize, out: &mut [u64]) -> u64
    ensures { ReadsPage record_len region_groups (left_by script.now) compartment from out.old out.new result }
{
    exports::regions_page(script, compartment, from, out)
}

// A page of its stored segments: hpa, gpa, size and repeat.
#[unsafe(no_mangle)]
pub extern "C" fn segments_page(
    script: &[u8],
    compartment: u64,
    from: usize,
    out: &mut [u64],
) -> u64
    ensures { ReadsPage 4 segment_groups (left_by script.now) compartment from out.old out.new result }
{
    exports::segments_page(script, compartment, from, out)
}

// Whether a guest range shares an address with the span of a stored segment after a script.
#[unsafe(no_mangle)]
pub extern "C" fn overlaps_after(script: &[u8], compartment: u64, start: u64, size: u64) -> u64
    ensures { result ≡ coded_as (answer (left_by script.now) (Overlaps compartment (guest start) size)) }
{
    exports::overlaps_after(script, compartment, start, size)
}
