ghost use Rattle.std.specs.Prelude.{◌≡◌, ◌≤◌};
ghost use Rattle.survey.specs.Plots.{field_value, plot_in, field_count};

use base::{Field, Place};
use store::Store;

/// What a store holds of one plot: the value of each field that it has.
#[derive(Clone, Copy, PartialEq, Eq, Debug)]
pub struct Plot {
    pub east: Option<i16>,
    pub north: Option<i16>,
    pub holder: Option<i16>,
    pub status: Option<i16>,
}

// The value of one field of a plot, where the store has it.
fn field_value<S: Store>(store: &S, ground: u16, plot: u16, field: Field) -> Option<i16>
    ensures { result ≡ field_value (S.Store.cells store.now) ground plot field }
{
    let place = Place::new(ground, plot, field)?;
    store.fetch(u16::from(place)).map(|cell| cell.value)
}

impl Plot {
    /// The fields of a ground's plot, each where the store has it; none of a ground above 7 or a plot above 2,047.
    pub fn fetch<S: Store>(store: &S, ground: u16, plot: u16) -> Plot
        ensures { result ≡ plot_in (S.Store.cells store.now) ground plot }
    {
        Plot {
            east: field_value(store, ground, plot, Field::East),
            north: field_value(store, ground, plot, Field::North),
            holder: field_value(store, ground, plot, Field::Holder),
            status: field_value(store, ground, plot, Field::Status),
        }
    }

    /// How many of the four fields are there.
    pub fn fields(&self) -> usize
        ensures value { result ≡ field_count self.now }
        ensures bound { result ≤ 4 }
    {
        // Added up, since an array of the four is laid down anew for each plot.
        usize::from(self.east.is_some())
            + usize::from(self.north.is_some())
            + usize::from(self.holder.is_some())
            + usize::from(self.status.is_some())
    }
}
