// The two traits of the outside, and what their calls answer.
ghost use Rattle.std.specs.Prelude.{◌≡◌, ℕ, ◌++◌, ◌≤◌, List, Option, IfSome, IfErr, OnOk, OnErr, option_map, ⊤};
ghost use Rattle.std.specs.FinMap as map;
ghost use Rattle.outer_shelf.specs.Counts.{Rose, one_more};
ghost use Rattle.outer_shelf.specs.Outside.{AppendsFront, Fetches, Files, KeepsLimit, ShelfTold, SinkTold};
ghost use Rattle.outer_shelf.specs.Outside.{OnFetchFailed, OnPutFailed, OnWriteFailed, SameElsewhere, files_with};

use std::alloc::Global;

/// What a [`Shelf`] answers when a file is fetched.
#[derive(Debug, Drop)]
pub enum Fetched {
    /// The bytes of the file: at most as many as the limit allows.
    Found(Vec<u8>),
    /// There is no file of that name.
    Absent,
    /// The file has more bytes than the limit allows.
    TooLong {
        /// The number of bytes in the file, or as many as were read before it was known to be too long.
        length: u64,
        /// The limit that the caller gave, in bytes.
        limit: u64,
    },
    /// The shelf failed, as a disk does.
    Failed,
    /// There was no memory for the bytes.
    NoMemory,
}

/// Why a [`Shelf`] did not put a file.
#[derive(Debug, Clone, Copy, PartialEq, Eq)]
pub enum PutFault {
    /// The shelf failed, as a full disk does.
    Failed,
    /// There was no memory for the file.
    NoMemory,
}

/// Why a [`Sink`] did not take a piece.
#[derive(Debug, Clone, Copy, PartialEq, Eq)]
pub enum SinkFault {
    /// The sink failed, as a closed pipe does.
    Failed,
    /// There was no memory for the piece.
    NoMemory,
}

/// A place of named files.
///
/// A shelf tells three things: its files and the number of its calls, each where it tells it, and a
/// count of faults, which never falls. A call answers `Failed` only where that count rose, or stands
/// at the last value of a `u64`. A shelf may also say what a refused put of it leaves of the files.
pub trait Shelf {
    ghost told: { Self → ShelfTold };

    // What a refused put of these bytes under that name may leave, of the files before and after.
    ghost leaves: { List ℕ → List ℕ → Option Files → Option Files → Type 0 } = { λ _ _ _ _. ⊤ };

    /// Fetches the file of that name, if it has at most `limit` bytes. The files stay as they are.
    fn fetch(&mut self, alloc: Global, name: &str, limit: u64) -> Fetched
        ensures answer { IfSome (told self.old).files (λ m. Fetches (map.get m name.now) limit result) }
        ensures in_limit { KeepsLimit limit result }
        ensures failed { OnFetchFailed result (Rose (told self.old).faults (told self.new).faults) }
        ensures files_stay { (told self.new).files ≡ (told self.old).files }
        ensures counted { (told self.new).calls ≡ option_map one_more (told self.old).calls }
        ensures faults_stay { (told self.old).faults ≤ (told self.new).faults };

    /// Puts these bytes under that name, in place of what was there. After a refusal nothing is
    /// said of that name, and every other name is as it was.
    fn put(&mut self, name: &str, bytes: &[u8]) -> Result<(), PutFault>
        ensures ok { OnOk result ((told self.new).files
            ≡ option_map (files_with name.now bytes.now) (told self.old).files) }
        ensures refused { OnErr result (SameElsewhere name.now (told self.old).files (told self.new).files) }
        ensures left { OnErr result (leaves name.now bytes.now (told self.old).files (told self.new).files) }
        ensures failed { IfErr result (λ fault. OnPutFailed fault
            (Rose (told self.old).faults (told self.new).faults)) }
        ensures counted { (told self.new).calls ≡ option_map one_more (told self.old).calls }
        ensures faults_stay { (told self.old).faults ≤ (told self.new).faults };
}

/// A place that takes bytes one piece after another.
///
/// A sink tells three things: the bytes written and the number of its calls, each where it tells it,
/// and a count of faults, which never falls. A call answers `Failed` only where that count rose, or
/// stands at the last value of a `u64`.
pub trait Sink {
    ghost told: { Self → SinkTold };

    /// Appends the piece. After a refusal a front of the piece is appended, which may be empty.
    fn write(&mut self, piece: &[u8]) -> Result<(), SinkFault>
        ensures ok { OnOk result ((told self.new).written
            ≡ option_map (λ bytes. bytes ++ piece.now) (told self.old).written) }
        ensures refused { OnErr result (AppendsFront piece.now (told self.old).written (told self.new).written) }
        ensures failed { IfErr result (λ fault. OnWriteFailed fault
            (Rose (told self.old).faults (told self.new).faults)) }
        ensures counted { (told self.new).calls ≡ option_map one_more (told self.old).calls }
        ensures faults_stay { (told self.old).faults ≤ (told self.new).faults };
}
