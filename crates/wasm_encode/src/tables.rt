// Tables.
ghost use Rattle.std.specs.Prelude.{◌≡◌, ◌+◌, ◌≤◌, ◌<◌, ◌^◌, ◌++◌, ◌↔◌, IsTrue, length, take};
ghost use Rattle.wasm_encode.specs.Tables.{InitFits, initialized_bytes};
ghost use Rattle.wasm_encode.specs.Limits.{TableFits};

use crate::bytes::{write_byte, write_bytes};
use crate::encode::Encode;
use crate::expressions::bytes_of;
use crate::globals::is_expression;
use wasm_items::{Table, TableInit, TableType};

// Returns whether an initial value is null or one constant expression.
fn init_fits(init: &TableInit<'_>) -> bool
    ensures { IsTrue result ↔ InitFits init.now }
{
    match init {
        TableInit::RefNull => true,
        TableInit::Expr(init) => is_expression(init),
    }
}

// Returns how many bytes a table of this type has, with its initial value.
#[tactic(auto, using(crate::proofs::Lengths::table_few))]
fn initialized_len(ty: &TableType, init: &TableInit<'_>) -> usize
    requires { TableFits ty.now }
    ensures { result ≡ length (initialized_bytes ty.now init.now) }
{
    match init {
        TableInit::RefNull => ty.encoded_len(),
        TableInit::Expr(init) => 2 + ty.encoded_len() + bytes_of(init).len(),
    }
}

impl<'a> Encode for Table<'a> {
    ghost use Rattle.wasm_base.specs.Item.{ReadsAs};
    ghost use Rattle.wasm_encode.specs.Limits.{LimitsAllowed};
    ghost use Rattle.wasm_encode.specs.Tables.{TableItemFits, table_bytes, table_placed};
    ghost use Rattle.wasm_items.specs.Tables.{table_at};

    ghost meaning = { ReadsAs (λ table. table) table_at };

    ghost encoded = { table_bytes };

    ghost is_encodable = { TableItemFits };

    ghost is_allowed = { λ features table. LimitsAllowed features table.ty.initial table.ty.maximum };

    ghost placed = { table_placed };

    #[tactic(auto, unfolding(crate::specs::Tables::table_bytes))]
    fn fits(&self) -> bool {
        if !self.ty.fits() {
            return false;
        }
        if !init_fits(&self.init) {
            return false;
        }
        initialized_len(&self.ty, &self.init) <= u32::MAX as usize
    }

    #[tactic(auto, unfolding(crate::specs::Tables::table_bytes))]
    fn encoded_len(&self) -> usize {
        initialized_len(&self.ty, &self.init)
    }

    #[tactic(auto, unfolding(crate::specs::Tables::table_bytes), using(crate::proofs::RestStays::stays_on))]
    fn encode_at(&self, bytes: &mut [u8], at: usize) -> usize {
        match &self.init {
            TableInit::RefNull => self.ty.encode_at(bytes, at),
            TableInit::Expr(init) => {
                let after_first = write_byte(bytes, at, 0x40);
                let after_version = write_byte(bytes, after_first, 0x00);
                let after_type = self.ty.encode_at(bytes, after_version);
                write_bytes(bytes, after_type, bytes_of(init))
            }
        }
    }

    fn reads_back(&self) {}
}
