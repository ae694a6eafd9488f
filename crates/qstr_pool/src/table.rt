//! The texts that every file may name by number.

ghost use Rattle.std.specs.Prelude.{◌≡◌, ◌↔◌, ◌<◌, ◌≤◌, length, map, option_copied, IsTrue, IsSome, IfSome};
ghost use Rattle.qstr_pool.specs.Pool.{IsOneToOne, all_differ};
ghost use Rattle.qstr_pool.specs.Slot.{slot};
ghost use Rattle.qstr_pool.specs.Static.{static_texts, static_pool, static_text_of, static_number_of};

/// The texts, in the order of their numbers.
const STATIC_TEXTS: [&[u8]; 165] = [
    b"",
    b"__dir__",
    b"\n",
    b" ",
    b"*",
    b"/",
    b"<module>",
    b"_",
    b"__call__",
    b"__class__",
    b"__delitem__",
    b"__enter__",
    b"__exit__",
    b"__getattr__",
    b"__getitem__",
    b"__hash__",
    b"__init__",
    b"__int__",
    b"__iter__",
    b"__len__",
    b"__main__",
    b"__module__",
    b"__name__",
    b"__new__",
    b"__next__",
    b"__qualname__",
    b"__repr__",
    b"__setitem__",
    b"__str__",
    b"ArithmeticError",
    b"AssertionError",
    b"AttributeError",
    b"BaseException",
    b"EOFError",
    b"Ellipsis",
    b"Exception",
    b"GeneratorExit",
    b"ImportError",
    b"IndentationError",
    b"IndexError",
    b"KeyError",
    b"KeyboardInterrupt",
    b"LookupError",
    b"MemoryError",
    b"NameError",
    b"NoneType",
    b"NotImplementedError",
    b"OSError",
    b"OverflowError",
    b"RuntimeError",
    b"StopIteration",
    b"SyntaxError",
    b"SystemExit",
    b"TypeError",
    b"ValueError",
    b"ZeroDivisionError",
    b"abs",
    b"all",
    b"any",
    b"append",
    b"args",
    b"bool",
    b"builtins",
    b"bytearray",
    b"bytecode",
    b"bytes",
    b"callable",
    b"chr",
    b"classmethod",
    b"clear",
    b"close",
    b"const",
    b"copy",
    b"count",
    b"dict",
    b"dir",
    b"divmod",
    b"end",
    b"endswith",
    b"eval",
    b"exec",
    b"extend",
    b"find",
    b"format",
    b"from_bytes",
    b"get",
    b"getattr",
    b"globals",
    b"hasattr",
    b"hash",
    b"id",
    b"index",
    b"insert",
    b"int",
    b"isalpha",
    b"isdigit",
    b"isinstance",
    b"islower",
    b"isspace",
    b"issubclass",
    b"isupper",
    b"items",
    b"iter",
    b"join",
    b"key",
    b"keys",
    b"len",
    b"list",
    b"little",
    b"locals",
    b"lower",
    b"lstrip",
    b"main",
    b"map",
    b"micropython",
    b"next",
    b"object",
    b"open",
    b"ord",
    b"pop",
    b"popitem",
    b"pow",
    b"print",
    b"range",
    b"read",
    b"readinto",
    b"readline",
    b"remove",
    b"replace",
    b"repr",
    b"reverse",
    b"rfind",
    b"rindex",
    b"round",
    b"rsplit",
    b"rstrip",
    b"self",
    b"send",
    b"sep",
    b"set",
    b"setattr",
    b"setdefault",
    b"sort",
    b"sorted",
    b"split",
    b"start",
    b"startswith",
    b"staticmethod",
    b"step",
    b"stop",
    b"str",
    b"strip",
    b"sum",
    b"super",
    b"throw",
    b"to_bytes",
    b"tuple",
    b"type",
    b"update",
    b"upper",
    b"utf-8",
    b"value",
    b"values",
    b"write",
    b"zip",
];

/// By how much the slots of texts of one kind are moved, so that no two of the texts have one slot.
/// `bin/static-slots` finds these and the places from the texts.
static SHIFTS: [u8; 32] = [
    4, 14, 7, 0, 8, 9, 78, 3, 0, 11, 13, 52, 18, 16, 6, 0, 7, 1, 0, 26, 0, 3, 40, 3, 4, 21, 3, 1,
    5, 10, 2, 19,
];

/// The place of the text that may stand in each slot. The others have the place of the empty text.
static PLACES: [u8; 256] = [
    99, 0, 0, 64, 0, 56, 0, 144, 0, 0, 0, 0, 0, 106, 32, 161, 0, 0, 0, 0, 120, 81, 0, 0, 46, 57, 0,
    15, 0, 92, 139, 85, 11, 22, 0, 105, 164, 67, 75, 0, 4, 127, 82, 123, 134, 71, 62, 97, 141, 0,
    27, 79, 0, 96, 145, 29, 0, 0, 124, 0, 0, 0, 0, 78, 70, 7, 0, 130, 61, 45, 128, 119, 0, 0, 104,
    41, 0, 109, 0, 0, 34, 158, 136, 153, 0, 157, 83, 129, 0, 0, 156, 0, 39, 0, 74, 21, 42, 9, 162,
    36, 26, 52, 0, 0, 152, 0, 159, 0, 90, 30, 3, 0, 25, 93, 13, 76, 0, 37, 0, 0, 137, 151, 6, 125,
    0, 0, 98, 80, 154, 0, 69, 0, 24, 117, 0, 0, 143, 89, 135, 149, 102, 121, 43, 55, 111, 150, 100,
    28, 51, 0, 126, 0, 0, 0, 1, 107, 10, 65, 72, 0, 91, 0, 108, 12, 31, 147, 94, 18, 60, 95, 8, 54,
    160, 58, 66, 68, 133, 5, 73, 101, 0, 47, 0, 0, 116, 44, 14, 0, 0, 0, 0, 40, 0, 38, 0, 0, 142,
    0, 19, 77, 2, 0, 0, 16, 131, 148, 84, 103, 132, 35, 112, 0, 122, 0, 87, 113, 0, 114, 23, 53,
    48, 49, 163, 0, 0, 0, 0, 50, 0, 110, 33, 146, 0, 0, 88, 0, 115, 0, 0, 0, 0, 0, 59, 20, 63, 0,
    138, 0, 0, 17, 118, 155, 140, 0, 0, 86,
];

/// How many texts every file may name by number.
pub const STATIC_COUNT: u16 = 165;

/// The number of the first text that a file names of its own.
pub const FIRST_OWN: u32 = 166;

/// All texts that every file may name by number.
fn texts() -> &'static [&'static [u8]]
    ensures texts { map (λ text. text.now) result.now ≡ static_texts }
    ensures count { length result.now ≡ STATIC_COUNT }
{
    &STATIC_TEXTS
}

/// The slot of a text that isn't empty, by its length and three of its bytes.
#[inline(always)]
fn slot_of(text: &[u8]) -> usize
    requires { 0 < length text.now }
    ensures { result ≡ slot text.now }
{
    let first = usize::from(text[0]);
    let middle = usize::from(text[text.len() / 2]);
    let third = usize::from(text[(text.len() - 1).min(2)]);
    let shift = usize::from(SHIFTS[(text.len() + 54 * first) % SHIFTS.len()]);
    (9 * middle + 10 * third + shift) % PLACES.len()
}

/// The text of the number. Numbers count from 1.
pub fn static_text(n: u16) -> Option<&'static [u8]>
    ensures text { option_copied result ≡ static_text_of n }
    ensures found { IsSome result ↔ ((1 ≤ n) × (n ≤ STATIC_COUNT)) }
{
    let place = n.checked_sub(1)?;
    texts().get(usize::from(place)).copied()
}

/// The number of the text.
pub fn static_number(text: &[u8]) -> Option<u16>
    ensures number { result ≡ static_number_of text.now }
    ensures within { IfSome result (λ n. (1 ≤ n) × (n ≤ STATIC_COUNT)) }
{
    if text.is_empty() {
        return Some(1);
    }
    let place = usize::from(PLACES[slot_of(text)]);
    let known = texts().get(place)?;
    if text == *known {
        Some(1 + place as u16)
    } else {
        None
    }
}

/// No text stands twice, so that number and text are inverse to each other.
pub fn static_law()
    ensures count { length static_texts ≡ STATIC_COUNT }
    ensures differ { IsTrue (all_differ static_texts) }
    ensures one_to_one { IsOneToOne static_pool }
{}
