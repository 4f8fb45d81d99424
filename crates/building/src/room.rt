// Whether there is room.
ghost use Rattle.std.specs.Prelude.{◌≡◌};
ghost use Rattle.model.specs.Room.{no_room};

// No room beside so many, for something that may be new.
pub(crate) fn has_no_room(new: bool, room: usize, many: usize) -> bool
    ensures { result ≡ no_room new room many }
{
    new && room <= many
}
