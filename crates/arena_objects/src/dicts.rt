//! Dicts by their keys.

ghost use Rattle.std.specs.Prelude.{◌≡◌, ℕ, ◌+◌, ◌∷◌, ◌++◌, [], length, IfSome, IfNone, OnOk, OnErr, IfErr};
ghost use Rattle.std.specs.List.{remove};
ghost use Rattle.py_values.specs.mpy_base.World.{ADict, IsA, Later, pairs_at, with_dict};
ghost use Rattle.py_values.specs.mpy_base.Weights.{Fits, Refused, dict_growth, with_pairs};
ghost use Rattle.arena_heap.specs.Values.{Leads, IsKey};
ghost use Rattle.arena_heap.specs.Constants.{IsTold};
ghost use Rattle.arena_heap.specs.Dicts.{with_value};
ghost use Rattle.arena_objects.specs.Keys.{StandsAt, Lacks, IsValueOf, KeepsOthers, IsDistinct, AllTold};

use crate::finding::place_of;
use arena_heap::{
    Arena, Constants, DictNo, Value, dict_at, dict_push, dict_remove_at, dict_set_at,
};
use py_values::NoRoom;

/// The value of a key.
#[inline(always)]
pub fn dict_get<C: Constants>(arena: &Arena, consts: &C, d: DictNo, key: Value) -> Option<Value>
    requires dict { IsA arena.now.objects ADict d.cell }
    requires key { IsKey key }
    requires leads { Leads arena.now.objects key }
    requires told { IsTold (C.text_of consts.now) (C.items_of consts.now) key }
    requires all_told { AllTold (C.text_of consts.now) (C.items_of consts.now) arena.now.objects }
    ensures found { IfSome result (IsValueOf (C.text_of consts.now) arena.now d.cell key) }
    ensures none { IfNone result (Lacks (C.text_of consts.now) arena.now d.cell key) }
    ensures leads { IfSome result (Leads arena.now.objects) }
    ensures told { IfSome result (IsTold (C.text_of consts.now) (C.items_of consts.now)) }
{
    let place = place_of(arena, consts, d, key)?;
    let (_, v) = dict_at(arena, d, place)?;
    Some(v)
}

/// Sets the value of a key. A new key stands behind the others; one that is there keeps its first spelling.
pub fn dict_set<C: Constants>(
    arena: &mut Arena,
    consts: &C,
    d: DictNo,
    key: Value,
    v: Value,
) -> Result<(), NoRoom>
    requires dict { IsA arena.old.objects ADict d.cell }
    requires key { IsKey key }
    requires key_leads { Leads arena.old.objects key }
    requires leads { Leads arena.old.objects v }
    requires key_told { IsTold (C.text_of consts.now) (C.items_of consts.now) key }
    requires told { IsTold (C.text_of consts.now) (C.items_of consts.now) v }
    requires all_told { AllTold (C.text_of consts.now) (C.items_of consts.now) arena.old.objects }
    ensures set { (at : ℕ) → StandsAt (C.text_of consts.now) arena.old d.cell key at
        → arena.new ≡ with_dict arena.old d.cell (with_value (pairs_at arena.old d.cell) at v) }
    ensures added { OnOk result (Lacks (C.text_of consts.now) arena.old d.cell key
        → arena.new ≡ with_pairs arena.old d.cell (pairs_at arena.old d.cell ++ (key, v) ∷ [])) }
    ensures fits { OnOk result (Lacks (C.text_of consts.now) arena.old d.cell key
        → Fits arena.old (dict_growth arena.old d.cell (length (pairs_at arena.old d.cell) + 1)) 0) }
    ensures value { OnOk result (IsValueOf (C.text_of consts.now) arena.new d.cell key v) }
    ensures others { KeepsOthers (C.text_of consts.now) arena.old arena.new d.cell key }
    ensures distinct { IsDistinct (C.text_of consts.now) arena.old d.cell → IsDistinct (C.text_of consts.now) arena.new d.cell }
    ensures new_key { OnErr result (Lacks (C.text_of consts.now) arena.old d.cell key) }
    ensures refused { IfErr result (λ e. Refused arena.old arena.new e (dict_growth arena.old d.cell (length (pairs_at arena.old d.cell) + 1)) 0) }
    ensures later { Later arena.old.objects arena.new.objects }
    ensures all_told { AllTold (C.text_of consts.now) (C.items_of consts.now) arena.new.objects }
{
    match place_of(arena, consts, d, key) {
        Some(at) => {
            dict_set_at(arena, d, at, v);
            Ok(())
        }
        None => dict_push(arena, d, key, v),
    }
}

/// Takes out the pair with a key, and gives its value. The pairs behind it close up.
pub fn dict_delete<C: Constants>(
    arena: &mut Arena,
    consts: &C,
    d: DictNo,
    key: Value,
) -> Option<Value>
    requires dict { IsA arena.old.objects ADict d.cell }
    requires key { IsKey key }
    requires leads { Leads arena.old.objects key }
    requires told { IsTold (C.text_of consts.now) (C.items_of consts.now) key }
    requires all_told { AllTold (C.text_of consts.now) (C.items_of consts.now) arena.old.objects }
    ensures found { IfSome result (IsValueOf (C.text_of consts.now) arena.old d.cell key) }
    ensures none { IfNone result (Lacks (C.text_of consts.now) arena.old d.cell key) }
    ensures deleted { (at : ℕ) → StandsAt (C.text_of consts.now) arena.old d.cell key at
        → arena.new ≡ with_dict arena.old d.cell (remove (pairs_at arena.old d.cell) at) }
    ensures others { KeepsOthers (C.text_of consts.now) arena.old arena.new d.cell key }
    ensures gone { IsDistinct (C.text_of consts.now) arena.old d.cell → Lacks (C.text_of consts.now) arena.new d.cell key }
    ensures distinct { IsDistinct (C.text_of consts.now) arena.old d.cell → IsDistinct (C.text_of consts.now) arena.new d.cell }
    ensures unchanged { IfNone result (arena.new ≡ arena.old) }
    ensures leads { IfSome result (Leads arena.old.objects) }
    ensures told { IfSome result (IsTold (C.text_of consts.now) (C.items_of consts.now)) }
    ensures later { Later arena.old.objects arena.new.objects }
    ensures all_told { AllTold (C.text_of consts.now) (C.items_of consts.now) arena.new.objects }
{
    let at = place_of(arena, consts, d, key)?;
    let (_, v) = dict_at(arena, d, at)?;
    dict_remove_at(arena, d, at);
    Some(v)
}
