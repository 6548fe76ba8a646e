// What a writing reads: a type table with its names, a value table with its pool, and the table of literal bytes.
// The tables may be any: a call that needs a whole or a good type table asks for it.
use crate::literal::Literal;

#[derive(Drop)]
pub struct Tables<'a> {
    pub types: &'a [u32],
    pub names: &'a [u8],
    pub values: &'a [u32],
    pub pool: &'a [u8],
    pub literal: Literal,
}
