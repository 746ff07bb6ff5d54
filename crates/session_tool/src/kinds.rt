// The kinds that a session is made of, by their words.
use texts::Misread;

#[derive(Clone, Copy)]
pub(crate) enum SettingKind {
    Colours,
    Links,
}

impl TryFrom<&[u8]> for SettingKind {
    type Error = Misread;

    fn try_from(word: &[u8]) -> Result<SettingKind, Misread> {
        match word {
            b"colour" => Ok(SettingKind::Colours),
            b"link" => Ok(SettingKind::Links),
            _ => Err(Misread::Form),
        }
    }
}

#[derive(Clone, Copy)]
pub(crate) enum SummaryKind {
    Exact,
    Filter,
}

impl TryFrom<&[u8]> for SummaryKind {
    type Error = Misread;

    fn try_from(word: &[u8]) -> Result<SummaryKind, Misread> {
        match word {
            b"exact" => Ok(SummaryKind::Exact),
            b"bloom" => Ok(SummaryKind::Filter),
            _ => Err(Misread::Form),
        }
    }
}

/// In which order a line settles.
#[derive(Clone, Copy)]
pub(crate) enum Order {
    Offering,
    Turns,
}

impl TryFrom<&[u8]> for Order {
    type Error = Misread;

    fn try_from(word: &[u8]) -> Result<Order, Misread> {
        match word {
            b"first-come" => Ok(Order::Offering),
            b"turn" => Ok(Order::Turns),
            _ => Err(Misread::Form),
        }
    }
}
