//! The version of the program.

/// The version, which is that of the package.
pub const VERSION: &str = "0.19.0";

/// The kit with which the program is proved and compiled.
pub const KIT: &str = "rattle-kit-13f logic dac8208d650f15bf";

/// The version and the kit, as `--version` prints them after the program's name.
pub(crate) const VERSION_TEXT: &str = "0.19.0 (rattle-kit-13f logic dac8208d650f15bf)";
