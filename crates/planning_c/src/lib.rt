// What a host program links that plans: the functions of planning after a script and for the text of a wish, under the same names and
// promises.
#![tactic(auto)]

ghost use Rattle.exports.specs.Exports.{left_by};
ghost use Rattle.planner.specs.Writing.{PrintsPlan};
ghost use Rattle.planning.specs.Plans.{PlansAfter};

// A page of the script for a wanted layout, under the allowance that a compartment has after a script.
#[unsafe(no_mangle)]
pub extern "C" fn plan_page(
    script: &[u8],
    compartment: u64,
    wanted: &[u64],
    from: usize,
    out: &mut [u64],
) -> u64
    ensures { PlansAfter (left_by script.now) compartment wanted.now from out.old out.new result }
{
    planning::plan_page(script, compartment, wanted, from, out)
}

// The script for a wish that is a text, or its refusal: as many whole lines as out takes; answers how many bytes.
#[unsafe(no_mangle)]
pub extern "C" fn plan_script(
    compartment: u64,
    allowance: u64,
    text: &[u8],
    out: &mut [u8],
) -> usize
    ensures { PrintsPlan compartment allowance text.now out.old out.new result }
{
    planning::plan_script(compartment, allowance, text, out)
}
