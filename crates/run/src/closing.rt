// The closing line of a showing.
ghost use Rattle.std.specs.Prelude.{◌≡◌, nat_lt};
ghost use Rattle.stores.specs.Views.{at};
ghost use Rattle.rules.specs.Rules.{closing_line};

use crate::parts::Closing;
use lines::End;
use std::array;
use stores::store::Store;
use stores::view::View;

impl Closing {
    // the greatest end of each location
    pub(crate) fn of<S: Store>(store: &S) -> Closing
        ensures { result.ends ≡ closing_line (S.Store.held store.now) }
    {
        let ends = array::from_fn(|x| store.greatest_end(x as u8));
        Closing {
            ends: View { ends },
        }
    }

    // whether a span that begins at `from` begins above the line
    pub(crate) fn is_below(&self, location: u8, from: End) -> bool
        ensures { result ≡ nat_lt (at self.now.ends location) from }
    {
        self.ends.at(location) < from
    }
}
