// The C6's compensation by channel.
ghost use Rattle.std.specs.Prelude.{◌≡◌};
ghost use Rattle.esp32c6.specs.Channel.{chan_compens_of};

use crate::field::ADC1_INIT_CODE_ATTEN0_CH0;
use inputs::input::check_decoding;
use maps::value::record_value;
use terms::chip::MapChip;
use terms::refusal::Refusal;
use terms::signed::sign_magnitude;

// Channels 6 and up use channel 6.
const LAST_CHANNEL: u8 = 6;

const CHAN_DIFF_BITS: u8 = 4;

// A channel's compensation at an attenuation: from -28 to 28. Any channel is answered. Refusals 1, 20, 7, the map's.
pub fn rtc_calib_get_chan_compens(
    dump: &[u32],
    lengths: &[u8],
    map: &[u8],
    unit: u8,
    channel: u8,
    atten: u8,
) -> Result<i32, Refusal>
    ensures { result ≡ chan_compens_of lengths.now dump.now map.now unit channel atten }
{
    check_decoding(MapChip::C6, dump, lengths, map, unit, atten)?;
    let chan_diff = record_value(
        dump,
        lengths,
        map,
        ADC1_INIT_CODE_ATTEN0_CH0 + (channel.min(LAST_CHANNEL) as usize),
    );
    // A signed code of four bits, weighed by the attenuation.
    Ok(sign_magnitude(CHAN_DIFF_BITS, chan_diff as u16) * ((4 - atten) as i32))
}
