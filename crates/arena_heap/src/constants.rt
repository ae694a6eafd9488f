//! The constants and texts that values name and that lie outside the arena.

use crate::value::{ConstNo, StrNo, Value};

/// What a library tells of its texts and its constant tuples.
pub trait Constants {
    ghost use Rattle.std.specs.Prelude.{◌≡◌, ℕ, ◌<◌, ◌^◌, List, [], length, Option, Some, option_and_then, slice_get, MatchOption, IfSome, All};
    ghost use Rattle.std.specs.Option.{option_map};
    ghost use Rattle.arena_heap.specs.declared.value.StrNo.{StrNo as TextName};
    ghost use Rattle.arena_heap.specs.declared.value.ConstNo.{ConstNo as TupleName};
    ghost use Rattle.arena_heap.specs.declared.value.Value.{Value as Item};
    ghost use Rattle.arena_heap.specs.Constants.{HoldNoObjects, IsItemOf, NestsWithin};
    ghost use Rattle.qstr_pool.specs.declared.table.TheConstants.{FIRST_OWN};
    ghost use Rattle.qstr_pool.specs.Static.{static_text_of};

    /// The bytes of a text.
    ghost text_of: { Self → TextName → Option (List ℕ) };

    /// The items of a constant tuple.
    ghost items_of: { Self → TupleName → Option (List Item) };

    /// The bytes of a text, each below 0x80, or None where there is no such text.
    fn text(&self, s: StrNo) -> Option<&[u8]>
        ensures text { MatchOption result (text_of self.now s ≡ None) (λ bytes. text_of self.now s ≡ Some bytes.now) }
        ensures ascii { IfSome result (λ bytes. All (λ b. b < 128) bytes.now) }
        ensures few { IfSome result (λ bytes. length bytes.now < 2 ^ 31) };

    /// The text with number 1 is the empty one.
    fn empty_law(&self)
        ensures { text_of self.now (StrNo.Pool 1) ≡ Some [] };

    /// No two numbers have one text.
    fn one_number_law(&self)
        ensures { (text : List ℕ) (m n : ℕ) → text_of self.now (StrNo.Pool m) ≡ Some text → text_of self.now (StrNo.Pool n) ≡ Some text → m ≡ n };

    /// A number that every file may give a text has that text.
    fn static_law(&self)
        ensures { (n : ℕ) → n < FIRST_OWN → text_of self.now (StrNo.Pool n) ≡ static_text_of n };

    /// The number that a text has, if any.
    fn number(&self, text: &[u8]) -> Option<u32>
        ensures { (n : ℕ) → text_of self.now (StrNo.Pool n) ≡ Some text.now → result ≡ Some n };

    /// No constant tuple holds an object of an arena.
    fn items_law(&self)
        ensures { HoldNoObjects (items_of self.now) };

    /// How many items a constant tuple has, or None where there is no such tuple. Constant tuples nest at most 32 deep.
    fn len(&self, c: ConstNo) -> Option<u32>
        ensures len { result ≡ option_map length (items_of self.now c) }
        ensures nests { IfSome result (λ _. NestsWithin (items_of self.now) 32 c) };

    /// An item of a constant tuple, or None where there is none. It is None, a bool, a small integer, the empty tuple, or
    /// a text or tuple that these calls tell. Such a tuple has the same module and a greater number.
    fn item(&self, c: ConstNo, i: u32) -> Option<Value>
        ensures item { result ≡ option_and_then (λ items. slice_get items i) (items_of self.now c) }
        ensures formed { IfSome result (IsItemOf (text_of self.now) (items_of self.now) c) };
}
