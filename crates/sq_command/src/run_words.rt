//! The words of `run` and `watch`.

ghost use Rattle.sq_system.specs.Starts.{StartFits};

/// `run` or `watch` with `FILE INPUT LIMIT BASE SIZE ARG*`, but for the arguments: they are the words of the command
/// line behind these six.
#[derive(Clone, Copy, Debug)]
pub struct RunWords<'w> {
    pub file: &'w str,
    pub input: &'w str,
    pub limit: u32,
    pub base: u32,
    pub size: u32,
    pub ghost fits: { StartFits base size },
}
