// An accepted table with the inverse of its M made ready, and with both matrices made ready.
ghost use Rattle.std.specs.Prelude.{◌≡◌};
ghost use Rattle.table.specs.Table.{IsTable};
ghost use Rattle.table.specs.ReadyHelpers.{is_table_prop};
ghost use Rattle.check_steps.specs.StepHelpers.{back_ready};

use table::Ready;

// An accepted table, and the inverse of its M made ready for undoing first steps.
#[derive(Clone, Copy)]
pub struct BackReady<'a> {
    pub table: &'a [u64],
    pub inverse: &'a [u64],
    pub ghost accepted: { IsTable table.now } by { is_table_prop table.now },
    pub ghost made: { inverse.now ≡ back_ready table.now },
}

// Both of one table: what the tests of a trace take.
#[derive(Clone, Copy)]
pub struct Steps<'a> {
    pub ready: Ready<'a>,
    pub back: BackReady<'a>,
    pub ghost same: { back.table.now ≡ ready.table.now },
}
