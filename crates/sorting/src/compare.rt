// Which of two records of an image comes first: by label, then by berth, then by number.
ghost use Rattle.std.specs.Prelude.{◌≡◌};
ghost use Rattle.ranking.specs.Ranking.{rank_bytes};
ghost use Rattle.labels.specs.Images.{label_at};
ghost use Rattle.sorting.specs.Sorting.{standing, is_before};

use std::cmp::Ordering;

// Compares two records by their labels.
fn by_label(image: &[u8], first: usize, second: usize) -> Ordering
    ensures { result ≡ rank_bytes (label_at image.now first) (label_at image.now second) }
{
    let ranked = ranking::rank_bytes(
        labels::label_at(image, first),
        labels::label_at(image, second),
    );
    match ranked {
        Ok(order) => order,
        // No label is over the limit.
        Err(_) => Ordering::Equal,
    }
}

// Compares two records by their labels, then by berth, then by number.
fn compared(image: &[u8], first: u32, second: u32) -> Ordering
    ensures { result ≡ standing image.now first second }
{
    let label = by_label(image, first as usize, second as usize);
    let berth = ranking::compared(
        labels::berth_at(image, first as usize) as u32,
        labels::berth_at(image, second as usize) as u32,
    );
    let number = ranking::compared(first, second);
    ranking::followed(label, ranking::followed(berth, number))
}

// Does one record come before another?
pub(crate) fn comes_before(image: &[u8], first: u32, second: u32) -> bool
    ensures { result ≡ is_before (standing image.now first second) }
{
    matches!(compared(image, first, second), Ordering::Less)
}
