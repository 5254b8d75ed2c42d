//! The laws of the phases. The functions do nothing: each stands for the law that its contract says.

ghost use Rattle.phase.specs.Laws.{HeadersLead, PinnedLead, NotedLead, WalkFits, WalkStands, WalkNotes, WalkNeverStale, WalkFalls, WalkAsksWithin};
ghost use Rattle.phase.specs.Laws.{BackFits, BackLeads, BackLeadsAway, BackFalls, BackAsksWithin, LoadStands, LoadFalls};
ghost use Rattle.phase.specs.Laws.{WalkRemembers, WalkHasCauses, BackHasCauses};
ghost use Rattle.phase.specs.Taking.{TakeFits, TakeStands, TakeFalls, TakeRemembers, TakeHasCauses};
ghost use Rattle.phase.specs.Giving.{PlacesStand, HeldStands, GiveStands, GiveFalls};
ghost use Rattle.std.specs.Prelude.{ℕ, List};
ghost use Rattle.phase.specs.Knows.{IsUnderOne, HoldersLoad, KnowsMore};
ghost use Rattle.phase.specs.Making.{MakeFits, MakeKnows, MakeHolds, MakeFalls, PreparesRecord};
ghost use Rattle.phase.specs.Finding.{WordsStand, LoadsAreKnown, KnownWasLoaded, SearchTells, HoldersFind, PreparedStandsNowhere, PublishTells};

/// Where the structure is sound, a header that leads to a hash is that of the hash's owner. So who has pinned such a header knows
/// the owner, and so does who has noted one, whenever it is as it was.
pub fn headers_lead()
    ensures owners { HeadersLead }
    ensures pinned { PinnedLead }
    ensures noted { NotedLead }
{}

/// A way goes by what it loaded: behind the root it relies on the entries of that depth, behind an entry on the segment that it
/// names, and at its end on that segment as a live and current one, whose header is noted; nothing is found amiss. Each event is of
/// a kind that who relies on that may take, and leaves all else of the view as it was. Where it ends since the segment is stale, that is
/// relied on as a live one. No segment is stale where all have the image's version; and fewer events are left after each.
pub fn ways_go()
    ensures fits { WalkFits }
    ensures stands { WalkStands }
    ensures notes { WalkNotes }
    ensures current { WalkNeverStale }
    ensures falls { WalkFalls }
    ensures within { WalkAsksWithin }
{}

/// The way again: its last event looks at the header, as the machine asks for it, and those before it are of kinds that any view
/// may take, and leave the view. It ends at a header that is as it was and leads to the hash, and at no other; and fewer events are
/// left after each.
pub fn ways_go_again()
    ensures fits { BackFits }
    ensures leads { BackLeads }
    ensures away { BackLeadsAway }
    ensures falls { BackFalls }
    ensures within { BackAsksWithin }
{}

/// The load of a bucket keeps what was loaded, each word at its number, and fewer words are left after each.
pub fn bucket_loads()
    ensures stands { LoadStands }
    ensures falls { LoadFalls }
{}

/// What a way keeps its attempt loaded; and each of its ends has its cause, and so has the end of a way again.
pub fn ends_have_causes()
    ensures remembers { WalkRemembers }
    ensures walk { WalkHasCauses }
    ensures back { BackHasCauses }
{}

/// A lock is taken by a look and an exchange, which a view may take that knows its segment to be live and of the version of the
/// image; then the view has it beside those that it held.
/// Where it is not held the view is as it was, but for the lock words that it found spent. What is kept of it was loaded, and each
/// end has its cause, where the attempt did not change the lock word itself.
pub fn locks_are_taken()
    ensures fits { TakeFits }
    ensures stands { TakeStands }
    ensures falls { TakeFalls }
    ensures remembers { TakeRemembers }
    ensures causes { TakeHasCauses }
{}

/// The lock words of the six buckets are apart. Who holds locks by their places, and has nothing unsettled, planned, under way or
/// owed, may give them back one after another, until it holds and knows nothing.
pub fn locks_are_given_back()
    ensures places { PlacesStand }
    ensures held { HeldStands }
    ensures stands { GiveStands }
    ensures falls { GiveFalls }
{}

/// Who holds the lock of a bucket may load it, and knows it then beside what was known. A store makes its word known and keeps what
/// else is known under some locks, and makes no other word loose.
pub fn holders_know()
    ensures loads { HoldersLoad }
    ensures stores { (locks : List ℕ) → KnowsMore (IsUnderOne locks) }
{}

/// The stores of one record: at each of them the words under some locks are known, whichever they are, and nothing is loose but what was stored
/// and not settled; the holder of the lock may make those before the one that makes the change, where nothing is loose; and at the
/// end all is settled. The record stands ready then in its slot, and no other slot and no note is another.
pub fn records_are_made()
    ensures fits { MakeFits }
    ensures knows { (locks : List ℕ) → MakeKnows (IsUnderOne locks) }
    ensures holds { MakeHolds }
    ensures falls { MakeFalls }
    ensures prepares { PreparesRecord }
{}

/// What the holder of the buckets of a key has found, by the words that it loaded: what `world` asks of a search that found the
/// key nowhere, or somewhere, and of the draw of a change.
pub fn holders_find()
    ensures words { WordsStand }
    ensures known { LoadsAreKnown }
    ensures loaded { KnownWasLoaded }
    ensures tells { SearchTells }
    ensures finds { HoldersFind }
    ensures prepared { PreparedStandsNowhere }
    ensures published { PublishTells }
{}
