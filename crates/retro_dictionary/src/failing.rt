//! The place of the row that fails first.

ghost use Rattle.std.specs.Prelude.{◌≡◌, ◌≤◌, ◌<◌, length};
ghost use Rattle.retro_base.specs.Limits.{most_rows};
ghost use Rattle.retro_dictionary.specs.Failures.{place_of_bad, place_of_bad_label};

use key_index::Bad;
use order_labels::Labels;

/// The index of the row that fails first once a row is put in at a place, where its label is known.
pub(crate) fn place_of_bad(labels: &Labels, place: u32, bad: Option<Bad>) -> Option<u32>
    requires { length labels.now ≤ most_rows }
    ensures { result ≡ place_of_bad labels.now place bad }
{
    match bad? {
        Bad::Inserted => Some(place),
        Bad::Present { label } => {
            let index = labels.place_of_label(label)?;
            Some(if index < place { index } else { index + 1 })
        }
    }
}

/// The index of the row that fails first once the row at a place is taken out, where its label is known.
pub(crate) fn place_of_bad_label(labels: &Labels, place: u32, bad: Option<u64>) -> Option<u32>
    requires { length labels.now ≤ most_rows }
    ensures { result ≡ place_of_bad_label labels.now place bad }
{
    let index = labels.place_of_label(bad?)?;
    Some(if place < index { index - 1 } else { index })
}
