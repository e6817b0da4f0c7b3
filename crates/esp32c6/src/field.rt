// The records of the C6's map.

// Where the map has the fields with ids 9, 13 and 17: those for attenuation 0, or channel 0, which the others follow.
pub(crate) const ADC1_INIT_CODE_ATTEN0: usize = 0;

pub(crate) const ADC1_CAL_VOL_ATTEN0: usize = 4;

pub(crate) const ADC1_INIT_CODE_ATTEN0_CH0: usize = 8;
