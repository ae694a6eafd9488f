//! The texts of faults, which take no memory.

ghost use Rattle.std.specs.Prelude.{◌≡◌, ◌<◌, length, slice_index};
ghost use Rattle.prim_walks.specs.py_primitives.Faults.{fault_text};
ghost use Rattle.prim_faults.specs.Faults.{IsKnownFault, plain_fault};

use crate::fault::Fault;
use crate::names::fault_name;
use crate::piece::{pieces_byte, pieces_len};
use crate::wording::wording;
use prim_walks::{Arena, Constants};

/// How many bytes a fault's text has.
pub fn fault_len<C: Constants>(arena: &Arena, consts: &C, fault: Fault) -> usize
    requires { IsKnownFault (C.text_of consts.now) (C.items_of consts.now) arena.now.objects fault }
    ensures { result ≡ length (fault_text (plain_fault (C.text_of consts.now) (C.items_of consts.now) arena.now fault)) }
{
    pieces_len(&wording(fault), fault_name(arena, consts, fault))
}

/// The byte at a place of a fault's text.
pub fn fault_byte<C: Constants>(arena: &Arena, consts: &C, fault: Fault, at: usize) -> u8
    requires known { IsKnownFault (C.text_of consts.now) (C.items_of consts.now) arena.now.objects fault }
    requires within { at < length (fault_text (plain_fault (C.text_of consts.now) (C.items_of consts.now) arena.now fault)) }
    ensures { result ≡ slice_index (fault_text (plain_fault (C.text_of consts.now) (C.items_of consts.now) arena.now fault)) at }
{
    pieces_byte(&wording(fault), fault_name(arena, consts, fault), at)
}
