//! The law of plays one after another. The function does nothing: it stands for the law that its contract says.

ghost use Rattle.dash_top.specs.Chains.{PlaysLeaveSound, PlaysShareMap};

/// Plays compose: of any plays one after another, the first from the file of a sound image and each other one from the bytes that the one
/// before has left, by a close or by a power cut, each leaves the file of a sound image of the same shape. And one map goes through them
/// all: each play begins with the map that the one before has left, with each call that a cut left open whole or absent.
pub fn plays_compose()
    ensures sound { PlaysLeaveSound }
    ensures maps { PlaysShareMap }
{
    serve::sessions_compose();
}
