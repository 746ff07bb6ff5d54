// What every kind of setting shows. Whatever handles settings is written once, over this trait.
ghost use Rattle.std.specs.Prelude.{◌≡◌, ℕ, ◌≤◌, List, length, Some};
ghost use Rattle.number_bytes.specs.Bytes.{Byte};
ghost use Rattle.limits.specs.Limits.{widest_setting};
ghost use Rattle.std.specs.List.{AllByRecursion};
ghost use Rattle.settings.specs.Forms.{written, region_after};
ghost use Rattle.settings.specs.Kinds.{SettingKind};

/// The region is not as long as the form; it is as it was.
#[derive(Clone, Copy, PartialEq, Eq, Debug)]
pub struct WrongWidth;

/// A kind of setting: a width, a starting setting, a byte form and a reading.
pub trait Setting: Copy {
    /// Bytes of the form, 1 to 32.
    const WIDTH: usize;

    // the constant, and the meaning of the kind: width, starting setting, form and reading
    ghost WIDTH: { ℕ };

    ghost kind: { SettingKind Self };

    /// The constant, which is the width that the definitions have.
    fn width_of() -> usize
        ensures answer { result ≡ kind.wide }
    {
        Self::WIDTH
    }

    /// The setting of a node that no move has written.
    fn starting() -> Self
        ensures answer { result ≡ kind.start };

    /// Writes the form over a region of exactly the kind's width.
    fn write(&self, region: &mut [u8]) -> Result<(), WrongWidth>
        ensures answer { result ≡ written kind.wide region.old }
        ensures region { region.new ≡ region_after kind.wide (kind.form self.now) region.old };

    /// The setting whose form `bytes` is, if there is one.
    fn read(bytes: &[u8]) -> Option<Self>
        ensures answer { result ≡ kind.reading bytes.now };

    ghost width_is_wide: { WIDTH ≡ kind.wide };

    ghost some_width: { 1 ≤ kind.wide };

    ghost within_limit: { kind.wide ≤ widest_setting };

    ghost form_is_wide: { (s : Self) → length (kind.form s) ≡ kind.wide };

    ghost form_is_bytes: { (s : Self) → AllByRecursion Byte (kind.form s) };

    ghost form_reads: { (s : Self) → kind.reading (kind.form s) ≡ Some s };

    ghost only_forms_read: { (bs : List ℕ) (s : Self) → AllByRecursion Byte bs → kind.reading bs ≡ Some s → bs ≡ kind.form s };
}
