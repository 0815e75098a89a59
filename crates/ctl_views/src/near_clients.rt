// Clients that a person may have meant.
use bucket_store::Database;
use cynara_keys::Name;
use line_reasons::is_near;

/// Whether a policy names the client.
pub(crate) fn is_named(database: &Database, client: &[u8]) -> bool {
    database.buckets().iter().any(|bucket| {
        bucket
            .policies()
            .iter()
            .any(|policy| policy.key.client() == client)
    })
}

/// The first of these names that is near to this one.
pub(crate) fn near_name<'a>(names: &'a [Name], client: &[u8]) -> Option<&'a Name> {
    names.iter().find(|name| is_near(client, name.as_slice()))
}
