// How many modules of a house are lit: asked of a module table's bytes, and answered by one of them.

#![tactic(auto)]

ghost use Rattle.std.specs.Prelude.{◌≡◌};
ghost use Rattle.lit.specs.Lit.{lit_answer};

use ground::Refusal;
use record::{LIT_AT, TABLE_BYTES};

// The byte of a house that says how many of its modules are above level 0. Nothing else of the table is looked at but its length.
// Refused, in this order: 1, 2, 3.
pub fn lit(t: &[u8], house: u8) -> Result<usize, Refusal>
    ensures answer { result ≡ lit_answer house t.now }
{
    if t.len() != TABLE_BYTES {
        return Err(Refusal::Table);
    }
    if 15 < house {
        return Err(Refusal::Message);
    }
    let x = t[LIT_AT + house as usize];
    if 16 < x {
        return Err(Refusal::Record);
    }
    Ok(x as usize)
}
