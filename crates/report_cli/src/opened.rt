//! What a job reads from.

ghost use Rattle.std.specs.Prelude.{◌≡◌, IfOk, IfErr, OnErr};
ghost use Rattle.lane_words.specs.declared.Refusal.TheVariants as refusal;
ghost use Rattle.report_cli.specs.Private.Input.{of_input};

use crate::input::is_standard_input;
use crate::system::System;
use byte_io::{DeviceFailed, Source};
use lane_words::Refusal;
use progress::Watched;

/// What a path stands for.
#[derive(Drop)]
pub enum Input<F, I> {
    File(F),
    Stdin(I),
}

impl<F: Source, I: Source> Source for Input<F, I> {
    ghost use Rattle.report_cli.specs.Private.Input.{of_input};

    ghost left = { of_input F.left I.left };

    ghost failures = { of_input F.failures I.failures };

    fn expected(&self) -> usize {
        match self {
            Input::File(file) => file.expected(),
            Input::Stdin(input) => input.expected(),
        }
    }

    fn read(&mut self, buf: &mut [u8]) -> Result<usize, DeviceFailed> {
        match self {
            Input::File(file) => file.read(buf),
            Input::Stdin(input) => input.read(buf),
        }
    }
}

/// Opens what a path stands for.
pub fn open_input<Y: System>(system: &Y, path: &str) -> Result<Input<Y::File, Y::Stdin>, Refusal>
    ensures bytes { IfOk result (λ input. of_input Y.File.left Y.Stdin.left input
        ≡ (Y.files system.now).bytes_at path.now) }
    ensures failures { IfOk result
        (λ input. of_input Y.File.failures Y.Stdin.failures input ≡ 0) }
    ensures kind { IfErr result (λ e. e ≡ refusal.ReadFailed) }
    ensures cause { OnErr result (Y.files system.now).HasFailed }
{
    if is_standard_input(path) {
        return Ok(Input::Stdin(system.stdin()));
    }
    match system.open(path) {
        Ok(file) => Ok(Input::File(file)),
        Err(DeviceFailed) => Err(Refusal::ReadFailed),
    }
}

/// Opens FILE, whose read is watched.
pub fn open_file<Y: System>(
    system: &Y,
    path: &str,
) -> Result<Watched<Input<Y::File, Y::Stdin>, Y::Watcher>, Refusal>
    ensures bytes { IfOk result (λ file.
        ⟦<Watched<Input<Y::File, Y::Stdin>, Y::Watcher> as Source>⟧.left file
        ≡ (Y.files system.now).bytes_at path.now) }
    ensures failures { IfOk result (λ file.
        ⟦<Watched<Input<Y::File, Y::Stdin>, Y::Watcher> as Source>⟧.failures file ≡ 0) }
    ensures kind { IfErr result (λ e. e ≡ refusal.ReadFailed) }
    ensures cause { OnErr result (Y.files system.now).HasFailed }
{
    let input = open_input(system, path)?;
    let watcher = system.watcher(input.expected());
    Ok(Watched::new(input, watcher))
}
