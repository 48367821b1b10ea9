//! Layer: definitions. Below: model_handoff. Above: images.
//!
//! The formal model of saved guests: the contents of an image, its byte format, and how images are
//! written, read and loaded, with theorems about saving, loading and migration.
#![tactic(auto)]

ghost use Rattle.model_images.specs.{FitLaws.{FittingAfter, FittingAlong, FittingAtFirst, SavedFits}, ImageExamples.ImageExamples, LoadLaws.{AnswersAsSaved, BoardAfterLoad, BoardBesideLoad, HandoffAfterLoad, HoldsAsSaved, KeepsWhatWasSaved, LawfulAfterLoad, LoadedHolds, LoadsAlike, NamesAfterLoad, OthersAfterLoad, PathsAfterLoad, RestartedHolds, SeatedAfterLoad, ShownAfterLoad}, RequestLaws.{AnswersStayAlong, AnswersStayByCount, LawfulAlongRequests, RequestCountsGrow}, Requests.IsolatedByRequests, StepLaws.LoadsBySteps, ByteExamples.ByteExamples, ByteLaws.{BytesAreBytes, BytesAreRead, GuestsHaveBytes, OneImage, ReadAreBytes, ReadIsOfAGuest}, LoadedLaws.{AcceptedIsImage, AlikeAccepted, ImagesDecided, KeepsSavedBytes, LoadsImage, RefusedStays}, SavedLaws.{CanBeSavedAlong, CanBeSavedAtFirst, NoImageIsRefused, SavesWhatWasTaken, TakesSavedGuest}, Stops.OneStop, TakenBytes.{AcceptedIsTaken, ImageIsTaken, SlotsAreTaken}};

/// Proves that a guest loaded from an image has the state of the saved guest, in any configuration,
/// and gives the same replies to the same inputs. Loading the image of the current state changes
/// nothing.
pub fn loaded_guest_equals_saved()
    ensures nothing { KeepsWhatWasSaved }
    ensures loaded { LoadedHolds }
    ensures restarted { RestartedHolds }
    ensures holds { HoldsAsSaved }
    ensures answers { AnswersAsSaved }
{}

/// Proves that loading a guest changes no other guest, no name, no path and no handoff, and changes
/// only the guest's own functions on the board.
pub fn load_changes_one_guest()
    ensures others { OthersAfterLoad }
    ensures names { NamesAfterLoad }
    ensures paths { PathsAfterLoad }
    ensures handoff { HandoffAfterLoad }
    ensures beside { BoardBesideLoad }
    ensures board { BoardAfterLoad }
    ensures alike { LoadsAlike }
{}

/// Proves isolation along any actions, loads and restarts: a guest's replies and state depend only
/// on its previous state and its own inputs.
pub fn guests_isolated_across_loads()
    ensures { IsolatedByRequests }
{}

/// Proves that after loading an image that fits, all functions keep their slots, the configuration
/// is lawful, and the handoff is unchanged.
pub fn fitting_load_stays_lawful()
    ensures seated { SeatedAfterLoad }
    ensures lawful { LawfulAfterLoad }
    ensures shown { ShownAfterLoad }
{}

/// Proves that the saved state of a guest always fits every guest with equal declarations, on any
/// board.
pub fn saved_state_fits_equal_guests()
    ensures first { FittingAtFirst }
    ensures after { FittingAfter }
    ensures along { FittingAlong }
    ensures fits { SavedFits }
{}

/// Proves that requests whose images fit keep the configuration lawful. A guest's change counter
/// increases by one with each request that changes the guest. While the counter is unchanged, every
/// answer about the addresses of the guest's regions stays valid.
pub fn unchanged_count_keeps_answers()
    ensures lawful { LawfulAlongRequests }
    ensures along { AnswersStayAlong }
    ensures counts { RequestCountsGrow }
    ensures stay { AnswersStayByCount }
{}

/// Proves that a guest and its device could have produced each loaded function state from reset,
/// byte by byte.
pub fn loaded_states_are_reachable()
    ensures { LoadsBySteps }
{}

/// Proves the contents of example images and the state of guests loaded from them.
pub fn worked_image_examples()
    ensures { ImageExamples }
{}

/// Proves that every byte sequence is either the encoding of exactly one image, which belongs to
/// some guest, or is rejected. Decoding an encoded image returns the image.
pub fn image_encoding_round_trips()
    ensures are_bytes { BytesAreBytes }
    ensures are_read { BytesAreRead }
    ensures spelled { ReadAreBytes }
    ensures one { OneImage }
    ensures of_a_guest { ReadIsOfAGuest }
{}

/// Proves that the image of a guest has an encoding if its functions are lawful and hold values
/// that they can hold.
pub fn lawful_guest_has_encoding()
    ensures { GuestsHaveBytes }
{}

/// Proves that the bytes that a guest accepts encode an image that fits the guest. An image that
/// doesn't fit is refused as belonging to other functions. A guest accepts its own image, and so
/// does every guest with equal declarations.
pub fn accepted_bytes_fit_the_guest()
    ensures images { AcceptedIsImage }
    ensures decided { ImagesDecided }
    ensures alike { AlikeAccepted }
    ensures load { LoadsImage }
    ensures refused { RefusedStays }
    ensures saved { KeepsSavedBytes }
{}

/// Proves that bytes saved from a guest at any time are accepted by each guest with equal
/// declarations, in any configuration. The loaded guest then answers as the saved one would have,
/// and no other guest's replies change. The guest can be saved from the start and after any
/// requests. Saving a guest straight after a load returns the loaded bytes.
pub fn saved_bytes_are_accepted()
    ensures first { CanBeSavedAtFirst }
    ensures along { CanBeSavedAlong }
    ensures taken { TakesSavedGuest }
    ensures again { SavesWhatWasTaken }
    ensures refused { NoImageIsRefused }
{}

/// Proves where accepted bytes hold the state of each slot, and that they encode exactly one image,
/// which fits the guest. The only requirement is that the guest's declarations can be serialized.
pub fn accepted_bytes_hold_each_slot()
    ensures slots { SlotsAreTaken }
    ensures image { ImageIsTaken }
    ensures accepted { AcceptedIsTaken }
{}

/// Proves that bytes that a guest refuses stop fitting at exactly one offset, unless they aren't an
/// image at all.
pub fn refusal_has_one_byte_offset()
    ensures { OneStop }
{}

/// Proves the encoding, decoding and refusal of example images.
pub fn worked_encoding_examples()
    ensures { ByteExamples }
{}
