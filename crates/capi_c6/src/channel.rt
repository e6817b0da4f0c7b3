// The C6's channel compensation.
ghost use Rattle.std.specs.Prelude.{◌≡◌};
ghost use Rattle.esp32c6.specs.Channel.{chan_compens_of};
ghost use Rattle.capi.specs.Answer.{reading_c};

use capi::answer::SkvReading;
use esp32c6::channel;

// A channel's compensation at an attenuation; any channel is answered. Refusals 1, 20, 7, the map's.
#[unsafe(no_mangle)]
pub extern "C" fn skv_c6_get_chan_compens(
    dump: &[u32],
    lengths: &[u8],
    map: &[u8],
    unit: u8,
    channel: u8,
    atten: u8,
) -> SkvReading
    ensures { result ≡ reading_c (chan_compens_of lengths.now dump.now map.now unit channel atten) }
{
    channel::rtc_calib_get_chan_compens(dump, lengths, map, unit, channel, atten).into()
}
