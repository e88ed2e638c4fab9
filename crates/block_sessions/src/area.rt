ghost use Rattle.std.specs.Prelude.{◌≡◌, ◌+◌, ◌<◌, ◌≤◌, length};
ghost use Rattle.erasure_code.specs.Spaces.{added_at};
ghost use Rattle.group_run.specs.Applying.{area_added};

use lane_kernel::xor_into;

/// Adds to an area that begins at address `from` what of a difference at `at`, which meets it, lies in it.
pub(crate) fn add_area(from: u32, at: u32, delta: &[u8], area: &mut [u8])
    requires before { at < from + length area.old }
    requires behind { from < at + length delta.now }
    ensures { area.new ≡ area_added from at delta.now area.old }
{
    if at <= from {
        let skip = (from - at) as usize;
        let len = area.len().min(delta.len() - skip);
        add_at(0, &delta[skip..skip + len], area);
    } else {
        let start = (at - from) as usize;
        let len = delta.len().min(area.len() - start);
        add_at(start, &delta[..len], area);
    }
}

fn add_at(start: usize, bytes: &[u8], area: &mut [u8])
    requires { start + length bytes.now ≤ length area.old }
    ensures { area.new ≡ added_at start bytes.now area.old }
{
    xor_into(bytes, &mut area[start..start + bytes.len()]);
}
