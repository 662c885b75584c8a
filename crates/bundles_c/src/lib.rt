// What a host program links that deploys: the functions of bundles for one bundle after a script, under the same names and promises.
#![tactic(auto)]

ghost use Rattle.std.specs.Prelude.{◌≡◌};
ghost use Rattle.definitions.specs.Pages.{record_len};
ghost use Rattle.definitions.specs.Calls.{stream_groups, region_groups};
ghost use Rattle.definitions.specs.Bundles.{bundle_of, bundle_answer, bundle_leaves};
ghost use Rattle.exports.specs.Exports.{coded as coded_as, left_by, ReadsPage};

// Whether a bundle is accepted after a script: groups of four numbers, the kind (0 an add, 1 a remove), start, end and rights.
#[unsafe(no_mangle)]
pub extern "C" fn bundle_after(script: &[u8], compartment: u64, groups: &[u64]) -> u64
    ensures { result ≡ coded_as (bundle_answer (left_by script.now) compartment (bundle_of compartment groups.now)) }
{
    bundles::bundle_after(script, compartment, groups)
}

// A page of the compartment's stream after a script and a bundle, which alters nothing where it is refused.
#[unsafe(no_mangle)]
pub extern "C" fn stream_after_bundle(
    script: &[u8],
    compartment: u64,
    groups: &[u64],
    from: usize,
    out: &mut [u64],
) -> u64
    ensures { ReadsPage 5 stream_groups (bundle_leaves (left_by script.now) compartment (bundle_of compartment groups.now)) compartment from out.old out.new result }
{
    bundles::stream_after_bundle(script, compartment, groups, from, out)
}

// A page of its stored regions after a script and a bundle.
#[unsafe(no_mangle)]
pub extern "C" fn regions_after_bundle(
    script: &[u8],
    compartment: u64,
    groups: &[u64],
    from: usize,
    out: &mut [u64],
) -> u64
    ensures { ReadsPage record_len region_groups (bundle_leaves (left_by script.now) compartment (bundle_of compartment groups.now)) compartment from out.old out.new result }
{
    bundles::regions_after_bundle(script, compartment, groups, from, out)
}
