//! Lists put into a list.
ghost use Rattle.std.specs.Prelude.{◌≡◌, ◌+◌, ◌≤◌, vec_len, vec_capacity};
ghost use Rattle.running_order.specs.Places.{put_in};

/// Puts the elements of `new` in before a place, which may be the end. There is room for them, so it takes no memory.
pub fn put_in_room<T: Drop>(list: &mut Vec<T>, at: usize, mut new: Vec<T>)
    requires within { at ≤ vec_len list.old }
    requires room { vec_len list.old + vec_len new ≤ vec_capacity list.old }
    ensures { list.new.items ≡ put_in list.old.items at new.items }
{
    let count = new.len();
    list.append(&mut new).unwrap();
    list[at..].rotate_right(count);
}
