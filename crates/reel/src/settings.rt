// The settings of a store of either engine.
use counter::StoreSettings;
use tape::Settings;

pub fn store_of(settings: Settings) -> StoreSettings {
    match settings {
        Settings::FreeList(s) => s.store,
        Settings::Buddy(s) => s.store,
    }
}

pub fn is_buddy(settings: Settings) -> bool {
    matches!(settings, Settings::Buddy(_))
}
