// The pages of a snapshot, read from its directory and rows.
ghost use Rattle.std.specs.Prelude.{◌≡◌};
ghost use Rattle.std.specs.Option.{option_map};
ghost use Rattle.segment.specs.Pages.{Names, kind_of, fragments_only, page_by, page_rows, page_state, shown};

use crate::snapshot::{PageEntry, PageState, RowKind, SnapshotRow, UnknownKind};

impl TryFrom<u8> for RowKind {
    type Error = UnknownKind;

    ghost try_from_gives = { Names };

    fn try_from(number: u8) -> Result<RowKind, UnknownKind> {
        match number {
            0 => Ok(RowKind::Base),
            1 => Ok(RowKind::Fragment),
            2 => Ok(RowKind::Free),
            3 => Ok(RowKind::Uninitialized),
            _ => Err(UnknownKind(number)),
        }
    }
}

impl SnapshotRow {
    // The kind that the row's number stands for.
    pub fn row_kind(&self) -> Option<RowKind>
        ensures { result ≡ kind_of self.now }
    {
        RowKind::try_from(self.kind).ok()
    }
}

fn all_fragments(rows: &[SnapshotRow]) -> bool
    ensures { result ≡ fragments_only rows.now }
{
    rows.iter()
        .all(|row| row.row_kind() == Some(RowKind::Fragment))
}

// The page that begins with this row and goes on with those.
fn joined(first: SnapshotRow, rest: &[SnapshotRow]) -> Option<PageState<'_>>
    ensures { option_map shown result ≡ page_by first rest.now (kind_of first) }
{
    match first.row_kind() {
        Some(RowKind::Base) if all_fragments(rest) => Some(PageState::Present {
            base: first,
            frags: rest,
        }),
        Some(RowKind::Free) if rest.is_empty() => Some(PageState::Free(first)),
        _ => None,
    }
}

// The page that these rows form: a base and the fragments after it, or one free row.
pub fn page_state(rows: &[SnapshotRow]) -> Option<PageState<'_>>
    ensures { option_map shown result ≡ page_state rows.now }
{
    match rows {
        [] => None,
        [first, rest @ ..] => joined(*first, rest),
    }
}

// The rows of one page, as a part of all rows; none where the directory has no such page or leads past the rows.
pub fn page_rows<'a>(
    directory: &[PageEntry],
    rows: &'a [SnapshotRow],
    page: usize,
) -> Option<&'a [SnapshotRow]>
    ensures { option_map (λ x. x.now) result ≡ page_rows directory.now rows.now page }
{
    let PageEntry { first, count } = *directory.get(page)?;
    let end = first.checked_add(count)?;
    rows.get(first as usize..end as usize)
}
