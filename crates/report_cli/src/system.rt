//! What the program meets: files, standard input, and who watches a long read.

ghost use Rattle.std.specs.Prelude.{◌≡◌, ◌≢◌, IfOk, OnErr, codes};
ghost use Rattle.report_cli.specs.Files.{Files};

use byte_io::{DeviceFailed, Source};
use progress::Watcher;

/// The system that a program runs on.
pub trait System {
    // The bytes that paths stand for, `-` for standard input, and whether one of them failed.
    ghost files: { Self → Files };

    /// A file that is open.
    type File: Source + Drop;

    /// Standard input.
    type Stdin: Source + Drop;

    /// Who watches a read.
    type Watcher: Watcher + Drop;

    /// Opens the file at a path.
    fn open(&self, path: &str) -> Result<Self::File, DeviceFailed>
        requires { path.now ≢ codes "-" }
        ensures bytes { IfOk result
            (λ file. Self.File.left file ≡ (files self.now).bytes_at path.now) }
        ensures failures { IfOk result (λ file. Self.File.failures file ≡ 0) }
        ensures err { OnErr result (files self.now).HasFailed };

    /// Standard input.
    fn stdin(&self) -> Self::Stdin
        ensures bytes { Self.Stdin.left result ≡ (files self.now).bytes_at (codes "-") }
        ensures failures { Self.Stdin.failures result ≡ 0 };

    /// Who watches the read of FILE, of about so many bytes, or 0 if there is no estimate.
    fn watcher(&self, expected: usize) -> Self::Watcher;

    // A failed read of a file is a failure.
    ghost failed_file_is_failure: { (system : Self) (file : Self.File)
        → Self.File.failures file ≡ 1 → (files system).HasFailed };

    // A failed read of standard input is a failure.
    ghost failed_stdin_is_failure: { (system : Self) (stdin : Self.Stdin)
        → Self.Stdin.failures stdin ≡ 1 → (files system).HasFailed };
}
