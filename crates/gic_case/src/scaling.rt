//! How strong a field is in a zone.

/// By what a given field is multiplied in a zone.
#[derive(Clone, Copy, Debug, PartialEq, Eq)]
pub enum Scaling {
    /// By the geomagnetic latitude, in hundredths of a degree from 0 to 9000, and beta, the scaling for the conductivity
    /// of the earth, in hundredths from 1 to 150.
    Earth { latitude: u16, beta: u8 },
    /// In one number, alpha times beta, in thousandths from 1 to 1500.
    Factor(u16),
}
