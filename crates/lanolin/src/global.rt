// The global state for C callers, who keep it: each export takes it where it stands, by `&` or `&mut`, hands it on to
// littlefs's function of the same name, and answers a word. Tests answer 1 or 0. An export is two calls and no more.
ghost use Rattle.std.specs.Prelude.{◌≡◌};
ghost use Rattle.format.specs.Answer.{flag_of};
ghost use Rattle.format.specs.Gstate.{gstate_xor, gstate_zero, gstate_has_orphans, gstate_orphans, gstate_needs_superblock};
ghost use Rattle.format.specs.Gstate.{gstate_has_move, gstate_has_move_here};

use format::LfsGstate;
use lanolin_answers::flag;

// A byte as a word.
fn widened(x: u8) -> u32
    ensures { result ≡ x }
{
    x as u32
}

#[unsafe(no_mangle)]
pub extern "C" fn lanolin_gstate_iszero(a: &LfsGstate) -> u32
    ensures { result ≡ flag_of (gstate_zero a.now) }
{
    flag(gstate::lfs_gstate_iszero(a))
}

#[unsafe(no_mangle)]
pub extern "C" fn lanolin_gstate_hasorphans(a: &LfsGstate) -> u32
    ensures { result ≡ flag_of (gstate_has_orphans a.now) }
{
    flag(gstate::lfs_gstate_hasorphans(a))
}

#[unsafe(no_mangle)]
pub extern "C" fn lanolin_gstate_getorphans(a: &LfsGstate) -> u32
    ensures { result ≡ gstate_orphans a.now }
{
    widened(gstate::lfs_gstate_getorphans(a))
}

#[unsafe(no_mangle)]
pub extern "C" fn lanolin_gstate_hasmove(a: &LfsGstate) -> u32
    ensures { result ≡ flag_of (gstate_has_move a.now) }
{
    flag(gstate::lfs_gstate_hasmove(a))
}

#[unsafe(no_mangle)]
pub extern "C" fn lanolin_gstate_needssuperblock(a: &LfsGstate) -> u32
    ensures { result ≡ flag_of (gstate_needs_superblock a.now) }
{
    flag(gstate::lfs_gstate_needssuperblock(a))
}

#[unsafe(no_mangle)]
pub extern "C" fn lanolin_gstate_hasmovehere(a: &LfsGstate, p0: u32, p1: u32) -> u32
    ensures { result ≡ flag_of (gstate_has_move_here a.now (record { n0 = p0; n1 = p1 })) }
{
    flag(gstate::lfs_gstate_hasmovehere(a, p0, p1))
}

// The only export that alters a state: both are copied, and the first is stored anew.
#[unsafe(no_mangle)]
pub extern "C" fn lanolin_gstate_xor(a: &mut LfsGstate, b: &LfsGstate)
    ensures { a.new ≡ gstate_xor a.old b.now }
{
    gstate::lfs_gstate_xor(a, b)
}
