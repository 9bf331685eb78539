// What the node makes of what peers sent.
ghost use Rattle.std.specs.Prelude.{◌≡◌, ◌<◌, false, true, IfErr, IfOk, IsErrOf, IsTrue, OnOk};
ghost use Rattle.mr_connections.specs.State.{HasLink};
ghost use Rattle.mr_node.specs.Parts.{role_of};
ghost use Rattle.mr_node_spec.specs.State.{end_of};
ghost use Rattle.mr_loop.specs.Causes.{HasInput, IsBurdened, IsLight, IsLinked};
ghost use Rattle.mr_loop.specs.Going.{GoesAs};
ghost use Rattle.mr_loop.specs.News.{is_client_end, place_of};
ghost use Rattle.mr_loop.specs.Hosts.{IsSame};
ghost use Rattle.mr_loop.specs.Quiet.{AllWait, OthersWait, WaitsUnless, left_at};

use crate::fault::LoopFault;
use crate::followed::{Place, news_of, place_of};
use crate::host::Host;
use crate::lacking::{asked_at, told_or_none};
use crate::moment::given;
use mr_file::LogFile;
use mr_links::LinkId;
use mr_node::{NodeFault, Role, Step};
use mr_source::Source;
use mr_wire::Wire;

/// Where more bytes wait for the file, they don't wait for the end of the turn.
const MOST_BATCH: usize = 1_048_576;

impl<W: Wire, F: LogFile, S: Source> Host<'_, '_, W, F, S> {
    /// Steps on a link until nothing whole is there.
    pub(crate) fn step_all(&mut self, socket: LinkId, link: LinkId) -> Result<(), LoopFault>
        requires { IsLinked self.old.node.now self.old.own.now socket link }
        ensures went { GoesAs W.tells W.links W.failures F.told F.synced S.drawn result self.old
            self.new }
        ensures same { IsSame W.waited F.failures self.old self.new }
        ensures device { IsErrOf result LoopFault.File → self.new.log.now.broken ≡ true }
        ensures quiet { OthersWait self.old.node.now link →
            OnOk result (AllWait self.new.node.now) }
    {
        while self.step_next(socket, link)? {}
        Ok(())
    }

    /// The next step on a link, where something is unread there, unless its client left too much unread. It answers whether something
    /// was used.
    fn step_next(&mut self, socket: LinkId, link: LinkId) -> Result<bool, LoopFault>
        requires { IsLinked self.old.node.now self.old.own.now socket link }
        ensures went { GoesAs W.tells W.links W.failures F.told F.synced S.drawn result self.old
            self.new }
        ensures same { IsSame W.waited F.failures self.old self.new }
        ensures device { IsErrOf result LoopFault.File → self.new.log.now.broken ≡ true }
        ensures quiet { OthersWait self.old.node.now link →
            IfOk result (λ used. WaitsUnless used link self.new.node.now) }
        ensures linked { IfOk result (λ used. used ≡ true →
            IsLinked self.new.node.now self.new.own.now socket link) }
        ensures uses { IfOk result (λ used. used ≡ true →
            left_at self.new.node.now link < left_at self.old.node.now link) }
    {
        if !self.has_unread(link)? {
            return Ok(false);
        }
        if !self.unburden(socket, link)? {
            return Ok(false);
        }
        let used = self.step(socket, link)?;
        if self.own.batch().len() > MOST_BATCH {
            self.commit()?;
        }
        Ok(used)
    }

    /// Whether something is unread on a link. A stopped node doesn't tell.
    fn has_unread(&self, link: LinkId) -> Result<bool, LoopFault>
        ensures some { IfOk result (λ some. some ≡ true → HasInput self.now.node.now link) }
        ensures none { IfOk result (λ some. some ≡ false →
            OthersWait self.now.node.now link → AllWait self.now.node.now) }
        ensures fault { IfErr result (λ e. (e ≡ LoopFault.Stopped) ×
            (self.now.node.now.core.up ≡ false)) }
    {
        // its clause says what the node's ends are
        self.node.sound();
        match self.node.unread(link) {
            Some(count) => Ok(count > 0),
            None => match self.node.shows() {
                Some(_shown) => Ok(false),
                None => Err(LoopFault::Stopped),
            },
        }
    }

    /// The next step on a link, which is counted. It answers whether something was used.
    fn step(&mut self, socket: LinkId, link: LinkId) -> Result<bool, LoopFault>
        requires input { HasInput self.old.node.now link }
        requires has { HasLink self.old.own.now.connections socket link }
        requires light { IsLight self.old.node.now self.old.own.now socket link }
        ensures went { GoesAs W.tells W.links W.failures F.told F.synced S.drawn result self.old
            self.new }
        ensures same { IsSame W.waited F.failures self.old self.new }
        ensures device { IsErrOf result LoopFault.File → self.new.log.now.broken ≡ true }
        ensures quiet { OthersWait self.old.node.now link →
            IfOk result (λ used. WaitsUnless used link self.new.node.now) }
        ensures linked { IfOk result (λ used. used ≡ true →
            IsLinked self.new.node.now self.new.own.now socket link) }
        ensures uses { IfOk result (λ used. used ≡ true →
            left_at self.new.node.now link < left_at self.old.node.now link) }
    {
        let given = given(self.source);
        let fresh = self.moment.fresh();
        let place = self.place(link);
        self.moment.count_step();
        match self.node.step(link, given, fresh) {
            Ok(Step::Done(outs)) => {
                self.node.sound();
                self.moment.count_use();
                let news = news_of(place, self.node.role(), &outs);
                self.moment.hear(news);
                self.take(outs)?;
                Ok(true)
            }
            Ok(Step::Idle) => {
                self.node.sound();
                Ok(false)
            }
            Ok(Step::Closed) => Ok(false),
            Err(NodeFault::Stopped) => {
                self.node.sound();
                Err(LoopFault::Stopped)
            }
            Err(_refused) => {
                self.node.sound();
                let unread = told_or_none(self.node.unread(link));
                self.own.lose(asked_at(place, unread));
                self.drop_connection(socket, Some(link));
                Ok(false)
            }
        }
    }

    /// Where a step on a link is made.
    fn place(&self, link: LinkId) -> Place
        ensures { result ≡
            place_of (role_of self.now.node.now) (is_client_end (end_of self.now.node.now link)) }
    {
        match self.node.role() {
            Role::Master | Role::Connect => Place::Elsewhere,
            Role::Sync => place_of(Role::Sync, self.node.is_client(link)),
            Role::Connected => place_of(Role::Connected, self.node.is_client(link)),
        }
    }

    /// Where a client left too much unread, what waits for it is written, and what waits for the file before that. Where too much is
    /// left, its connection is closed, which is counted. It answers whether the connection is still there.
    fn unburden(&mut self, socket: LinkId, link: LinkId) -> Result<bool, LoopFault>
        requires input { HasInput self.old.node.now link }
        requires linked { IsLinked self.old.node.now self.old.own.now socket link }
        ensures went { GoesAs W.tells W.links W.failures F.told F.synced S.drawn result self.old
            self.new }
        ensures same { IsSame W.waited F.failures self.old self.new }
        ensures device { IsErrOf result LoopFault.File → self.new.log.now.broken ≡ true }
        ensures quiet { OthersWait self.old.node.now link →
            IfOk result (λ there. there ≡ false → AllWait self.new.node.now) }
        ensures node { IfOk result (λ there. there ≡ true →
            self.new.node.now ≡ self.old.node.now) }
        ensures has { IfOk result (λ there. there ≡ true →
            HasLink self.new.own.now.connections socket link) }
        ensures light { IfOk result (λ there. there ≡ true →
            IsLight self.new.node.now self.new.own.now socket link) }
    {
        if !self.is_burdened(socket, link) {
            return Ok(true);
        }
        self.commit()?;
        if !self.write_ready(socket, link) {
            return Ok(false);
        }
        if !self.is_burdened(socket, link) {
            return Ok(true);
        }
        self.drop_connection(socket, Some(link));
        self.moment.count_deaf();
        Ok(false)
    }

    /// Whether a client left too much unread. Of a replica, and of the master, as much may wait as comes.
    fn is_burdened(&self, socket: LinkId, link: LinkId) -> bool
        ensures burdened { IsTrue result →
            IsBurdened self.now.node.now self.now.own.now socket link }
        ensures light { result ≡ false →
            IsLight self.now.node.now self.now.own.now socket link }
    {
        match self.own.connection(socket) {
            Some(connection) => connection.is_too_much() && self.node.is_client(link),
            None => false,
        }
    }
}
