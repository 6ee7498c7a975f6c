// The five functions for C. Each hands on to the function of its name in graupenzelt, and promises what that one does: a crate is a
// library for Rattle or an archive for C, not both, and C calls them by these names.
#![tactic(auto)]

ghost use Rattle.std.specs.Prelude.{◌≡◌};
ghost use Rattle.opening.specs.Opening.{opening_of};
ghost use Rattle.table.specs.Checking.{checked_of};
ghost use Rattle.graupenzelt.specs.Exports.{open_reply, check_reply, FramesInto, ComparesLines, HandlesInto};

use graupenzelt::{CheckReply, CompareReply, OpenReply, Reply};

#[unsafe(no_mangle)]
pub extern "C" fn graupenzelt_open(block: &[u8]) -> OpenReply
    ensures { result ≡ open_reply (opening_of block.now) }
{
    graupenzelt::graupenzelt_open(block)
}

#[unsafe(no_mangle)]
pub extern "C" fn graupenzelt_frame(payload: &[u8], area: &mut [u8]) -> Reply
    ensures { FramesInto payload.now area.old result area.new }
{
    graupenzelt::graupenzelt_frame(payload, area)
}

#[unsafe(no_mangle)]
pub extern "C" fn graupenzelt_check(payload: &[u8]) -> CheckReply
    ensures { result ≡ check_reply (checked_of payload.now) }
{
    graupenzelt::graupenzelt_check(payload)
}

#[unsafe(no_mangle)]
pub extern "C" fn graupenzelt_compare(a: &[u8], b: &[u8]) -> CompareReply
    ensures { ComparesLines a.now b.now result }
{
    graupenzelt::graupenzelt_compare(a, b)
}

#[unsafe(no_mangle)]
pub extern "C" fn graupenzelt_handle(block: &[u8], area: &mut [u8], work: &mut [u16]) -> Reply
    ensures { HandlesInto block.now area.old work.old result area.new work.new }
{
    graupenzelt::graupenzelt_handle(block, area, work)
}
