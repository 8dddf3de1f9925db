// An accepted table, and its M made ready for many products.
ghost use Rattle.std.specs.Prelude.{◌≡◌};
ghost use Rattle.table.specs.Table.{IsTable};
ghost use Rattle.table.specs.ReadyHelpers.{ready_matrix, is_table_prop};

#[derive(Clone, Copy)]
pub struct Ready<'a> {
    pub table: &'a [u64],
    pub matrix: &'a [u64],
    pub ghost accepted: { IsTable table.now } by { is_table_prop table.now },
    pub ghost made: { matrix.now ≡ ready_matrix table.now },
}
