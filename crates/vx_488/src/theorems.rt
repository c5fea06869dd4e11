//! Laws about lists of transfers. These functions do nothing: their contracts are what they are for.
ghost use Rattle.vx_488.specs.Laws.{WireAppendsLaw, ReachedAppendsLaw, HeardAppendsLaw, ListenByteLaw, TalkByteLaw, SecondaryByteLaw, OneListenerLaw, TalkerLaw};

/// The bus after two lists of transfers is that after the second, from where the first left it.
pub fn wire_appends()
    ensures { WireAppendsLaw }
{}

/// Two lists of transfers reach whom the first reaches, and then whom the second does from there on.
pub fn reached_appends()
    ensures { ReachedAppendsLaw }
{}

/// Of two lists of transfers an address hears what it hears of the first, and then of the second from there on.
pub fn heard_appends()
    ensures { HeardAppendsLaw }
{}

/// The command bytes that carry an address mean that address: MLA 20 to 3E, MTA 40 to 5E, MSA 60 to 7E.
pub fn address_bytes()
    ensures listen { ListenByteLaw }
    ensures talk { TalkByteLaw }
    ensures secondary { SecondaryByteLaw }
{}

/// After UNL, MLA and, where a device has a secondary address, MSA, it listens alone; after MTA and MSA it talks.
pub fn addressing()
    ensures one_listener { OneListenerLaw }
    ensures talker { TalkerLaw }
{}
