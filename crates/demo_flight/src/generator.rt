//! The generator.

ghost use Rattle.std.specs.Prelude.{◌≡◌, ◌<◌, ◌%◌, ◌^◌};
ghost use Rattle.demo_flight.specs.Generator.{next_state, high_bits};

// A linear congruential generator of 64 bits, whose draws are the high 31 bits of its states.
#[derive(Drop)]
pub(crate) struct Generator {
    pub(crate) state: u64,
}

impl Generator {
    // The next draw, as one of the numbers below `span`.
    #[tactic(auto, unfolding(crate::specs::Generator::next_state, crate::specs::Generator::high_bits))]
    pub(crate) fn below(&mut self, span: u32) -> u32
        requires span { 0 < span }
        ensures state { self.new.state ≡ next_state self.old.state }
        ensures value { result ≡ high_bits (next_state self.old.state) % span }
        ensures small { result < span }
    {
        self.state = self
            .state
            .wrapping_mul(6364136223846793005)
            .wrapping_add(1442695040888963407);
        (self.state >> 33) as u32 % span
    }
}
