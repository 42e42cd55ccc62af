// Which volumes may still be asked for.
ghost use Rattle.std.specs.Prelude.{◌≡◌};
ghost use Rattle.volumes.specs.Service.{is_living, is_head};
ghost use Rattle.std.specs.List.{list_any};

use crate::head::Head;
use wire::number::*;

fn has_head(heads: &[Head], volume: Volume) -> bool
    ensures { result ≡ list_any (is_head volume.0) heads.now }
{
    heads.iter().any(|head| head.number == volume)
}

// May a call still ask for sectors of this volume, where these volumes live and the next has this number? What a copy that catches up takes
// over may be of volumes whose number it hasn't given yet.
pub fn is_living(next: u64, heads: &[Head], volume: Volume) -> bool
    ensures { result ≡ is_living next heads.now volume.0 }
{
    volume.0 != 0 && (next <= volume.0 || has_head(heads, volume))
}
