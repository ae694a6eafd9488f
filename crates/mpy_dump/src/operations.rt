//! The names of operations and the signs of operators.

ghost use Rattle.std.specs.Prelude.{◌≡◌, [], map, slice_index_or};
ghost use Rattle.mpy_dump.specs.Operations as specs;

use bc_ops::Op;

/// The name of an operation.
pub(crate) fn operation_name(op: Op) -> &'static [u8]
    ensures { result.now ≡ specs.operation_name op }
{
    match op {
        Op::LoadConstString => b"LOAD_CONST_STRING",
        Op::LoadName => b"LOAD_NAME",
        Op::LoadGlobal => b"LOAD_GLOBAL",
        Op::LoadAttr => b"LOAD_ATTR",
        Op::LoadMethod => b"LOAD_METHOD",
        Op::StoreName => b"STORE_NAME",
        Op::StoreGlobal => b"STORE_GLOBAL",
        Op::StoreAttr => b"STORE_ATTR",
        Op::DeleteName => b"DELETE_NAME",
        Op::DeleteGlobal => b"DELETE_GLOBAL",
        Op::ImportName => b"IMPORT_NAME",
        Op::ImportFrom => b"IMPORT_FROM",
        Op::LoadConstObj => b"LOAD_CONST_OBJ",
        Op::LoadFastN => b"LOAD_FAST_N",
        Op::StoreFastN => b"STORE_FAST_N",
        Op::DeleteFast => b"DELETE_FAST",
        Op::BuildTuple => b"BUILD_TUPLE",
        Op::BuildList => b"BUILD_LIST",
        Op::BuildMap => b"BUILD_MAP",
        Op::UnpackSequence => b"UNPACK_SEQUENCE",
        Op::MakeFunction => b"MAKE_FUNCTION",
        Op::MakeFunctionDefargs => b"MAKE_FUNCTION_DEFARGS",
        Op::CallFunction => b"CALL_FUNCTION",
        Op::CallMethod => b"CALL_METHOD",
        Op::Jump => b"JUMP",
        Op::PopJumpIfTrue => b"POP_JUMP_IF_TRUE",
        Op::PopJumpIfFalse => b"POP_JUMP_IF_FALSE",
        Op::JumpIfTrueOrPop => b"JUMP_IF_TRUE_OR_POP",
        Op::JumpIfFalseOrPop => b"JUMP_IF_FALSE_OR_POP",
        Op::SetupExcept => b"SETUP_EXCEPT",
        Op::SetupFinally => b"SETUP_FINALLY",
        Op::PopExceptJump => b"POP_EXCEPT_JUMP",
        Op::ForIter => b"FOR_ITER",
        Op::LoadConstFalse => b"LOAD_CONST_FALSE",
        Op::LoadConstNone => b"LOAD_CONST_NONE",
        Op::LoadConstTrue => b"LOAD_CONST_TRUE",
        Op::LoadNull => b"LOAD_NULL",
        Op::LoadSubscr => b"LOAD_SUBSCR",
        Op::StoreSubscr => b"STORE_SUBSCR",
        Op::DupTop => b"DUP_TOP",
        Op::DupTopTwo => b"DUP_TOP_TWO",
        Op::PopTop => b"POP_TOP",
        Op::RotTwo => b"ROT_TWO",
        Op::RotThree => b"ROT_THREE",
        Op::EndFinally => b"END_FINALLY",
        Op::GetIterStack => b"GET_ITER_STACK",
        Op::StoreMap => b"STORE_MAP",
        Op::ReturnValue => b"RETURN_VALUE",
        Op::RaiseLast => b"RAISE_LAST",
        Op::RaiseObj => b"RAISE_OBJ",
        Op::LoadFast => b"LOAD_FAST",
        Op::StoreFast => b"STORE_FAST",
    }
}

/// The signs of the unary operators, by their numbers.
const UNARY_SIGNS: [&[u8]; 4] = [b"+", b"-", b"~", b"not"];

/// The signs of the binary operators: the comparisons, the operators in place, and the plain ones.
const BINARY_SIGNS: [&[u8]; 35] = [
    b"<", b">", b"==", b"<=", b">=", b"!=", b"in", b"is", b"match", b"|", b"^", b"&", b"<<", b">>",
    b"+", b"-", b"*", b"@", b"//", b"/", b"%", b"**", b"|", b"^", b"&", b"<<", b">>", b"+", b"-",
    b"*", b"@", b"//", b"/", b"%", b"**",
];

/// The sign of the operator of this number, and no bytes where there is none.
fn sign_at(signs: &[&'static [u8]], n: u8) -> &'static [u8]
    ensures { result.now ≡ slice_index_or (map (λ sign. sign.now) signs.now) n [] }
{
    match signs.get(usize::from(n)) {
        Some(sign) => sign,
        None => b"",
    }
}

/// The sign of a unary operator.
pub(crate) fn unary_sign(op: u8) -> &'static [u8]
    ensures { result.now ≡ specs.unary_sign op }
{
    sign_at(&UNARY_SIGNS, op)
}

/// The sign of a binary operator.
pub(crate) fn binary_sign(op: u8) -> &'static [u8]
    ensures { result.now ≡ specs.binary_sign op }
{
    sign_at(&BINARY_SIGNS, op)
}

/// What a binary operator is listed as.
pub(crate) fn binary_name(op: u8) -> &'static [u8]
    ensures { result.now ≡ specs.binary_name op }
{
    match op {
        9..=21 => b"INPLACE_OP",
        _ => b"BINARY_OP",
    }
}
