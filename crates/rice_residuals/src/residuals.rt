ghost use Rattle.std.specs.Prelude.{◌≡◌, ℕ, ◌≤◌, ◌<◌, ◌+◌, ℤ, pos, List, [], ◌∷◌, ◌++◌, drop, take, length};
ghost use Rattle.std.specs.List.{All};
ghost use Rattle.rice_residuals.specs.Code.{IsResidual};

/// The residuals of one block, row by row: up to 64, each from -2^17 to 2^17 - 1 in metres.
#[derive(Clone, Copy, Debug, PartialEq, Eq)]
pub struct Residuals {
    /// How many values are used.
    pub count: u8,
    /// The used values and, behind them, zeros.
    pub values: [i32; 64],
    pub ghost counted: { count ≤ 64 },
    pub ghost in_range: { All IsResidual values },
    pub ghost unused: { All (λ x. x ≡ pos 0) (drop count values) },
}

impl Residuals {
    ghost use Rattle.rice_residuals.specs.List.{residual_list};

    /// No residuals.
    pub fn none() -> Residuals
        ensures count { result.count ≡ 0 }
        ensures list { residual_list result ≡ [] }
    {
        Residuals {
            count: 0,
            values: [0; 64],
        }
    }

    /// Puts a residual behind the used ones.
    pub fn push(&mut self, value: i32)
        requires room { self.old.count < 64 }
        requires in_range { IsResidual value }
        ensures count { self.new.count ≡ self.old.count + 1 }
        ensures list { residual_list self.new ≡ residual_list self.old ++ value ∷ [] }
    {
        let place = usize::from(self.count);
        self.values[place] = value;
        self.count += 1;
    }

    /// The used residuals.
    pub fn used(&self) -> &[i32]
        ensures list { result.now ≡ residual_list self.now }
        ensures length { length result.now ≡ self.now.count }
    {
        &self.values[..usize::from(self.count)]
    }
}
