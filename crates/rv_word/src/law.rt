//! A law of the instruction table.
ghost use Rattle.std.specs.Prelude.{ℕ, ◌≤◌, count_by};
ghost use Rattle.rv_word.specs.Table.{row_matches, table};

/// No word matches two rows of the table.
pub fn rows_are_apart()
    ensures { (word : ℕ) → count_by (row_matches word) table ≤ 1 }
{}
