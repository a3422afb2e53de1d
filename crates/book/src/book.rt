//! What a service book is.
ghost use Rattle.std.specs.Prelude.{◌≡◌, ℕ, Option};
ghost use Rattle.model.specs.Books.{LawfulBook};

/// Services by number, and when one who comes at a second arrives. Asking changes nothing.
pub trait Book {
    /// How many services there are.
    ghost services: { Self → ℕ };

    /// The second of arrival or none, by service and second of coming.
    ghost answer: { Self → ℕ → ℕ → Option ℕ };

    /// None past the count or the horizon; no arrival before the coming or past the horizon; first in, first out.
    ghost lawful: { (b : Self) → LawfulBook (services b) (answer b) };

    fn count(&self) -> u32
        ensures { result ≡ services self.now };

    fn arrival(&self, service: u32, coming: u32) -> Option<u32>
        ensures { result ≡ answer self.now service coming };
}
