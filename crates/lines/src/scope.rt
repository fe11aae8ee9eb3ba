// How many threads and locations a job has: 1 to 4, and 1 to 8.
ghost use Rattle.std.specs.Prelude.{◌≡◌, ℕ, ◌≤◌, is_some, IfSome};
ghost use Rattle.lines.specs.Scopes.{in_scope};

use crate::{MOST_LOCATIONS, MOST_THREADS};

#[derive(Clone, Copy)]
pub struct Scope {
    threads: u8,
    locations: u8,
    ghost some_threads: { (1 ≤ threads) × (threads ≤ 4) },
    ghost some_locations: { (1 ≤ locations) × (locations ≤ 8) },
}

impl Scope {
    pub fn new(threads: u8, locations: u8) -> Option<Scope>
        ensures test { is_some result ≡ in_scope threads locations }
        ensures made { IfSome result (λ s. (s.threads ≡ threads) × (s.locations ≡ locations)) }
    {
        if (1..=MOST_THREADS).contains(&threads) && (1..=MOST_LOCATIONS).contains(&locations) {
            Some(Scope { threads, locations })
        } else {
            None
        }
    }

    pub fn threads(self) -> u8
        ensures { result ≡ self.threads }
    {
        self.threads
    }

    pub fn locations(self) -> u8
        ensures { result ≡ self.locations }
    {
        self.locations
    }
}
