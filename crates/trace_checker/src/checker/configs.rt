//! What the checker knows of configs.
ghost use Rattle.std.specs.Prelude.{◌≡◌, Bool, Option};
ghost use Rattle.std.specs.List.{IsDistinct};
ghost use Rattle.std.specs.Set.{is_member};

/// Configs of a cluster, each named by the content of the entry that holds it. The initial config
/// is `None`.
pub trait Configs<N: Copy + Eq, D: Copy + Eq> {
    /// Whether an entry of this content holds a config.
    ghost holds_config: { Self → D → Bool };

    /// Whether a set of servers is a quorum of a config.
    ghost has_quorum: { Self → Option D → (N → Bool) → Bool };

    /// Whether any quorum of one config and any quorum of another are known to intersect.
    ghost intersects: { Self → Option D → Option D → Bool };

    /// Whether an entry of this content holds a config.
    fn holds_config(&self, content: D) -> bool
        ensures { result ≡ holds_config self.now content };

    /// Whether distinct servers are a quorum of a config.
    fn is_quorum(&self, config: Option<D>, servers: &[N]) -> bool
        ensures { IsDistinct N.eq servers.now →
            result ≡ has_quorum self.now config (is_member N.eq servers.now) };

    /// Whether any quorum of one config and any quorum of another are known to intersect.
    fn do_intersect(&self, config: Option<D>, other: Option<D>) -> bool
        ensures { result ≡ intersects self.now config other };
}
