//! What a unit that is played does to the tables.

ghost use Rattle.std.specs.Prelude.{◌≡◌, ◌<◌, ℕ};
ghost use Rattle.keeper_play.specs.Played.{Changes};

use life_intervals::Cohort;

/// What a unit does to each table.
pub trait UnitSource {
    /// The number of tables.
    ghost tables: { Self → ℕ };

    /// What the unit does to the table at a place.
    ghost changes: { Self → ℕ → Changes };

    /// Returns the ordinals of the rows of a table that the unit deletes, in rising order.
    fn dels(&self, table: u32) -> &[u64]
        requires { table < tables self.now }
        ensures { result.now ≡ (changes self.now table).deleted };

    /// Returns the ordinals of the rows of a table that the unit updates, in rising order.
    fn upds(&self, table: u32) -> &[u64]
        requires { table < tables self.now }
        ensures { result.now ≡ (changes self.now table).updated };

    /// Returns the cohort of a table that the unit inserts.
    fn ins(&self, table: u32) -> Cohort
        requires { table < tables self.now }
        ensures { result ≡ (changes self.now table).inserted };
}
