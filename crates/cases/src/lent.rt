//! What a lender finds in his bytes once a session has had them.
ghost use Rattle.std.specs.Prelude.{◌≡◌, []};
ghost use Rattle.reel.specs.Stored.{room_in};
ghost use Rattle.reel.specs.Lent.{recorded_in};
ghost use Rattle.session.specs.Entries.{load};

use reel::host::HostReel;
use session::session::Session;

/// Loads a dump into a session over the bytes, and hands the bytes back: they hold the records that were taken, and behind them what they
/// held before.
pub fn load_over<'a>(bytes: &'a mut [u8], dump: &[u8]) -> &'a mut [u8]
    ensures bytes { result.now ≡ recorded_in bytes.old [] (load (room_in bytes.old) [] dump.now).events }
    ensures loan { result.ghost_name ≡ bytes.entry.ghost_name }
{
    let mut session = Session::open(HostReel::over(bytes));
    // what is refused is not asked here
    let _answer = session.load(dump);
    session.into_reel().into_bytes()
}

/// The same where the lender looks at his bytes again.
pub fn load_into(bytes: &mut [u8], dump: &[u8])
    ensures { bytes.new ≡ recorded_in bytes.old [] (load (room_in bytes.old) [] dump.now).events }
{
    load_over(bytes, dump);
}
