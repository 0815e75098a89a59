/// What happened under the roll's lock: a connection entered at this commit, or those that had entered below this
/// commit were hung up. The code keeps no list of them.
#[derive(Clone, Copy)]
pub enum Event {
    Entered(u64),
    Hung(u64),
}
