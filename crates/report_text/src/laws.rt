//! What holds of the text.
ghost use Rattle.report_text.specs.ReportLaws.{RowsHaveLines};

use tree_model::rows_are_entries;

/// Each entry of a tree has its line: what stands there is always known.
pub fn rows_have_lines()
    ensures { RowsHaveLines }
{
    rows_are_entries();
}
