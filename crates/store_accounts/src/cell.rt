//! The texts and numbers in the cells of rows.
ghost use Rattle.std.specs.Prelude.{◌≡◌, pos, ◌<◌, ◌≤◌, ◌^◌, option_map, slice_get, IfOk, IfErr};
ghost use Rattle.store_tables.specs.Cells.{or_null};
ghost use Rattle.store_accounts.specs.Refusals.{IsTransient};
ghost use Rattle.sqlite_value.specs.declared.value.Value.TheVariants.{Blob};
ghost use Rattle.sqlite_value.specs.Order.{column};

use crate::refusal::Refusal;
use crate::row::FromRow;
use octets::Octets;
use sqlite::{Error, Row};

/// The text in the cell.
pub fn text_at(row: &Row, at: usize) -> Result<Octets, Error>
    ensures { IfOk result (λ text. column row.now at ≡ Blob text) }
{
    let items: Vec<u8> = row.get(at)?;
    Ok(Octets::from_vec(items))
}

/// The text in the cell; `None` if it is NULL.
pub fn optional_text_at(row: &Row, at: usize) -> Result<Option<Octets>, Error>
    ensures { IfOk result (λ text. column row.now at ≡ or_null text) }
{
    let items: Option<Vec<u8>> = row.get(at)?;
    match items {
        Some(items) => Ok(Some(Octets::from_vec(items))),
        None => Ok(None),
    }
}

/// The text in the first row, if there is a row.
pub fn first_text(rows: &[Row]) -> Result<Option<Octets>, Refusal>
    ensures ok { IfOk result (λ text. option_map (λ t. Blob t) text ≡ option_map (λ r. column r 0) (slice_get rows.now 0)) }
    ensures named { IfErr result IsTransient }
{
    match rows.first() {
        Some(row) => {
            let text = text_at(row, 0)?;
            Ok(Some(text))
        }
        None => Ok(None),
    }
}

impl FromRow for Octets {
    ghost use Rattle.store_accounts.specs.FirstCells.{first_one, text_cells};

    ghost cells_of = { first_one };

    ghost shows = { text_cells };

    fn from_row(row: &Row) -> Result<Octets, Refusal> {
        Ok(text_at(row, 0)?)
    }
}

/// The number as the database stores it; past 2^63 - 1 it is refused.
pub fn number(n: u64) -> Result<i64, Refusal>
    ensures same { IfOk result (λ i. i ≡ pos n) }
    ensures fits { IfOk result (λ _. n < 2 ^ 63) }
    ensures named { IfErr result IsTransient }
    ensures past { IfErr result (λ e. (e ≡ Refusal.Store) × (2 ^ 63 ≤ n)) }
{
    match i64::try_from(n) {
        Ok(i) => Ok(i),
        Err(_) => Err(Refusal::Store),
    }
}
